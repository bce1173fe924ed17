// From a deck's bytes to what its cards ask for (document 01, "The deck"): refusals 1 to 7.
#![tactic(auto)]

ghost use Rattle.std.specs.Prelude.{◌≡◌, List, [], ◌+◌, ◌≤◌, length, drop, get_or, Some};
ghost use Rattle.rules.specs.Places.{All};
ghost use Rattle.rules.specs.Answer.{fine};
ghost use Rattle.rules.specs.Reader.{list_of, rest_of};
ghost use Rattle.rules.specs.Grammar.{Item, parameter as ruleParameter, item};
ghost use Rattle.rules.specs.Words.{worded};
ghost use Rattle.rules.specs.Asked.{letter, items_from, asked_of};
ghost use Rattle.terms.specs.Meaning.{format_of, field_of, part_of, field_cards};
ghost use Rattle.rows.specs.Kept.{row_of};
ghost use Rattle.readers.specs.Meaning.{parameter_of};
ghost use Rattle.limits.specs.Limits.{Reaches};
ghost use Rattle.lines.specs.Meaning.{IsCard, LineSays};
ghost use Rattle.cards.specs.Selected.{nothing_noted, field_counted, key_noted, field_noted, cv_noted, Keepable, kept_row, ListSays, no_selection};
ghost use Rattle.cards.specs.Parameters.{no_parameter, with_part, with_parameter, none_outside, with_numbers, UListed};
ghost use Rattle.cards.specs.Deck.{cards_in, fs_first, CardAtSays, FsSaid, FsFine};
ghost use Rattle.cards.specs.CardRefusals.{is_complete, u_outside, limits_of, card_refusal_of, asked_for};
ghost use Rattle.cards.specs.Promise.{card_refusal, nothing_asked, InOrder, DeckReads, DeckSays, card_of_field};

use lines::{CardRead, LineRead};
use readers::{CardItem, UParameter};
use terms::{Asked, Field, Format, Input, Mode, Part, Size};

const COMMA: u8 = b',';

const SLASH: u8 = b'/';

// At most so many fields are selected.
const FIELDS: usize = 64;

// ---- FS cards

// What is noted of the FS cards so far: how long the key is; how many fields are kept; the cards of the 65th field, of CV and of the first field that is taken
// from the key; the card and column of the second CV and of the first number outside its limits. 0 is none.
// Kept 0 for none, as in Parameters and OutsideColumns: the rules note a card and a column so, and Asked, which C reads, holds them so; Options would be undone.
#[derive(Clone, Copy)]
struct Noted {
    key: usize,
    count: usize,
    sixty_fifth: usize,
    cv: usize,
    keyed: usize,
    second_cv: usize,
    second_column: usize,
    beyond: usize,
    beyond_column: usize,
}

fn nothing_noted(key: usize) -> Noted
    ensures { result ≡ nothing_noted key }
{
    Noted {
        key,
        count: 0,
        sixty_fifth: 0,
        cv: 0,
        keyed: 0,
        second_cv: 0,
        second_column: 0,
        beyond: 0,
        beyond_column: 0,
    }
}

// One field more, whatever its numbers are.
fn counted(noted: Noted, card: usize) -> Noted
    ensures { result ≡ field_counted noted card }
{
    if noted.count < FIELDS {
        return Noted {
            count: noted.count + 1,
            ..noted
        };
    }
    Noted {
        sixty_fifth: limits::first_of(noted.sixty_fifth, card),
        ..noted
    }
}

// The card of the first field that is taken from the key.
fn key_noted(noted: Noted, card: usize, part: Part) -> Noted
    ensures { result ≡ key_noted noted card (part_of part) }
{
    match part {
        Part::Data => noted,
        Part::Key => Noted {
            keyed: limits::first_of(noted.keyed, card),
            ..noted
        },
    }
}

// One field more, of this part, whose first number outside its limits stands in this column.
fn field_noted(noted: Noted, card: usize, part: Part, outside: usize) -> Noted
    ensures { result ≡ field_noted noted card (part_of part) outside }
{
    let mut next = key_noted(counted(noted, card), card, part);
    if outside == 0 {
        return next;
    }
    if noted.beyond == 0 {
        next.beyond = card;
        next.beyond_column = outside;
    }
    next
}

// One CV more. A second one is noted, and no later one.
fn cv_noted(noted: Noted, card: usize, column: usize) -> Noted
    ensures { result ≡ cv_noted noted card column }
{
    if noted.cv == 0 {
        return Noted { cv: card, ..noted };
    }
    if noted.second_cv == 0 {
        return Noted {
            second_cv: card,
            second_column: column,
            ..noted
        };
    }
    noted
}

// A field goes into the row behind those before it, while there is room. One with a number outside its limits does not: its deck is refused.
fn keep(row: &mut [u16; 320], count: usize, field: Field, outside: usize)
    requires { (length row.old ≡ 320) × Keepable field outside }
    ensures { (length row.new ≡ 320) × (row.new ≡ kept_row count outside (field_of field) row.old) }
{
    if outside == 0 && count < FIELDS {
        rows::put_numbers(row, 5 * count, field);
    }
}

// A list is an item and its rest. It gives what is noted, or the column at which it stopped.
#[cycle(list_rest)]
fn list(
    operand: &[u8],
    card: usize,
    column: usize,
    noted: Noted,
    row: &mut [u16; 320],
) -> Result<Noted, usize>
    requires { (length row.old ≡ 320) × (1 ≤ column) × Reaches column (length operand.now) × (noted.key ≤ 4096) }
    ensures { (length row.new ≡ 320) × ListSays card column column (noted, row.old) operand.now (list_of "/" (worded item) operand.now) result row.new }
{
    match readers::item(operand) {
        Ok(found) => match found.value {
            CardItem::Field {
                part,
                field,
                places,
            } => {
                let outside = limits::field_outside(part, field, places, column);
                let own = keys::laid(part, field, noted.key);
                keep(row, noted.count, own, outside);
                let after = field_noted(noted, card, part, outside);
                rest(
                    &operand[found.used..],
                    card,
                    column + found.used,
                    after,
                    row,
                )
            }
            CardItem::CV => {
                let after = cv_noted(noted, card, column);
                rest(
                    &operand[found.used..],
                    card,
                    column + found.used,
                    after,
                    row,
                )
            }
        },
        Err(stop) => Err(column + stop.at),
    }
}

// A rest is nothing, or a slash and a list.
#[cycle(list_rest)]
fn rest(
    operand: &[u8],
    card: usize,
    column: usize,
    noted: Noted,
    row: &mut [u16; 320],
) -> Result<Noted, usize>
    requires { (length row.old ≡ 320) × (1 ≤ column) × Reaches column (length operand.now) × (noted.key ≤ 4096) }
    ensures { (length row.new ≡ 320) × ListSays card (1 + column) column (noted, row.old) operand.now (rest_of "/" (worded item) operand.now) result row.new }
{
    if operand.len() == 0 {
        return Ok(noted);
    }
    if operand[0] == SLASH {
        return list(&operand[1..], card, column + 1, noted, row);
    }
    Err(column)
}

// ---- the U card

// A card that could not be read, and the column at which it stopped.
#[derive(Clone, Copy)]
struct Unread {
    card: usize,
    column: usize,
}

// What the parameters of the U card have said so far: T, F, A, B and R, which of the letters T, F, A, B, I, O and R have stood, and the column of the
// first parameter whose letter stood before, or 0.
#[derive(Clone, Copy)]
struct Parameters {
    mode: Mode,
    format: Format,
    input: Input,
    output: Size,
    first: usize,
    seen: [bool; 7],
    twice: usize,
}

// No parameter. Where R is not given the first record is taken first.
fn no_parameter() -> Parameters
    ensures { result ≡ no_parameter }
{
    Parameters {
        mode: Mode::TC,
        format: Format::FF,
        input: Input::Plain(Size::One { g: 0 }),
        output: Size::One { g: 0 },
        first: 1,
        seen: [false; 7],
        twice: 0,
    }
}

// Which letter a parameter has.
fn letter(parameter: UParameter) -> usize
    ensures { result ≡ letter (parameter_of parameter) }
{
    match parameter {
        UParameter::ModeIs(_) => 0,
        UParameter::FormatIs(_) => 1,
        UParameter::InputIs(_) => 2,
        UParameter::OutputIs(_) => 3,
        UParameter::RewindIn => 4,
        UParameter::RewindOut => 5,
        UParameter::FirstIs(_) => 6,
    }
}

// The part that a parameter gives takes the place of the part before. The letters of I and O say nothing.
#[tactic(auto, unfolding(crate::specs::Parameters::with_part))]
fn with_part(state: Parameters, parameter: UParameter) -> Parameters
    ensures { result ≡ with_part state parameter }
{
    match parameter {
        UParameter::ModeIs(mode) => Parameters { mode, ..state },
        UParameter::FormatIs(format) => Parameters { format, ..state },
        UParameter::InputIs(input) => Parameters { input, ..state },
        UParameter::OutputIs(output) => Parameters { output, ..state },
        UParameter::RewindIn | UParameter::RewindOut => state,
        UParameter::FirstIs(first) => Parameters { first, ..state },
    }
}

// One parameter more, which begins at this column: the first of its letter counts, and a second one is noted.
fn with_parameter(state: Parameters, parameter: UParameter, column: usize) -> Parameters
    ensures { result ≡ with_parameter state parameter column }
{
    let at = letter(parameter);
    if state.seen[at] {
        return Parameters {
            twice: limits::first_of(state.twice, column),
            ..state
        };
    }
    let mut next = with_part(state, parameter);
    next.seen[at] = true;
    next
}

// The column of the first number outside its limits, or 0: where F is not FV, and where it is. F may stand behind A and B.
#[derive(Clone, Copy)]
struct OutsideColumns {
    plain: usize,
    variable: usize,
}

fn none_outside() -> OutsideColumns
    ensures { result ≡ none_outside }
{
    OutsideColumns {
        plain: 0,
        variable: 0,
    }
}

// The numbers of one parameter more.
fn with_numbers(
    before: OutsideColumns,
    parameter: UParameter,
    second: usize,
    column: usize,
) -> OutsideColumns
    requires { Reaches column 5 × Reaches column second }
    ensures { result ≡ with_numbers before parameter second column }
{
    OutsideColumns {
        plain: limits::first_of(
            before.plain,
            limits::parameter_outside(Format::FF, parameter, second, column),
        ),
        variable: limits::first_of(
            before.variable,
            limits::parameter_outside(Format::FV, parameter, second, column),
        ),
    }
}

// What the parameters of a U card say.
#[derive(Clone, Copy)]
struct URead {
    state: Parameters,
    outside: OutsideColumns,
}

// One or more parameters in any order with commas between. The operand begins at this column.
// Kept a loop: a parameter takes as many bytes as it is long, so that no range or iterator steps from one to the next.
fn u_card(operand: &[u8], column: usize) -> Result<URead, Unread>
    requires { (1 ≤ column) × Reaches column (length operand.now + 5) }
    ensures { UListed column operand.now (list_of "," (worded ruleParameter) operand.now) result }
{
    let mut state = no_parameter();
    let mut outside = none_outside();
    let mut at: usize = 0;
    loop {
        match readers::parameter(&operand[at..]) {
            Err(stop) => {
                return Err(Unread {
                    card: 1,
                    column: column + at + stop.at,
                });
            }
            Ok(found) => {
                state = with_parameter(state, found.value, column + at);
                outside = with_numbers(outside, found.value, found.second, column + at);
                at += found.used;
            }
        }
        if at == operand.len() {
            return Ok(URead { state, outside });
        }
        if operand[at] != COMMA {
            return Err(Unread {
                card: 1,
                column: column + at,
            });
        }
        at += 1;
    }
}

// ---- the cards of a deck

// The card that begins at a place of a deck: its operand, and where the next line begins.
#[derive(Clone, Copy)]
enum CardAt {
    UAt {
        start: usize,
        end: usize,
        next: usize,
    },
    FsAt {
        start: usize,
        end: usize,
        next: usize,
    },
    NoOperand,
}

// The card on a line that begins at `at`.
fn card_on(deck: &[u8], at: usize, line: LineRead) -> CardAt
    requires line_says { LineSays deck.now at (Some line) }
    requires all { All IsCard (cards_in (drop at deck.now)) }
    ensures { CardAtSays deck.now at result }
{
    let next = line.next;
    let read = lines::operand(&deck[at..line.end]);
    match read {
        CardRead::UCard { start, end } => CardAt::UAt {
            start: at + start,
            end: at + end,
            next,
        },
        CardRead::FsCard { start, end } => CardAt::FsAt {
            start: at + start,
            end: at + end,
            next,
        },
        CardRead::EndCard => CardAt::NoOperand,
    }
}

// The card on the line that begins at `at`. Each line from there on is a card, as the order has told.
fn card_at(deck: &[u8], at: usize) -> CardAt
    requires { All IsCard (cards_in (drop at deck.now)) }
    ensures { CardAtSays deck.now at result }
{
    match lines::line(deck, at) {
        Some(line) => card_on(deck, at, line),
        None => CardAt::NoOperand,
    }
}

// The FS cards from the line that begins at `from` on, behind a key of so many bytes. The first of them is card 2, and an operand begins at column 7. Their fields
// go into the row.
// Kept a loop, here and in card_over: each card says where the next line begins.
fn fs_cards(deck: &[u8], from: usize, key: usize, row: &mut [u16; 320]) -> Result<Noted, Unread>
    requires all { All IsCard (cards_in (drop from deck.now)) }
    requires row_value { (row.old ≡ row_of []) × (key ≤ 4096) }
    ensures { (length row.new ≡ 320) × FsSaid 2 (no_selection key) (fs_first (cards_in (drop from deck.now))) result row.new }
{
    let mut noted = nothing_noted(key);
    let mut card: usize = 2;
    let mut at = from;
    loop {
        let found = card_at(deck, at);
        let CardAt::FsAt { start, end, next } = found else {
            return Ok(noted);
        };
        noted = match list(&deck[start..end], card, 7, noted, row) {
            Ok(more) => more,
            Err(column) => return Err(Unread { card, column }),
        };
        card += 1;
        at = next;
    }
}

// ---- refusals 4 to 7

// Whether T, F, A and B are given.
fn is_complete(parameters: Parameters) -> bool
    ensures { result ≡ is_complete parameters }
{
    let seen = parameters.seen;
    seen[0] && seen[1] && seen[2] && seen[3]
}

// The column of the U card's first number outside its limits, or 0.
fn u_outside(format: Format, outside: OutsideColumns) -> usize
    ensures { result ≡ u_outside (format_of format) outside }
{
    match format {
        Format::FF => outside.plain,
        Format::FV => outside.variable,
        Format::FU => outside.plain,
        Format::FS => outside.variable,
    }
}

// A refusal of 1 to 7, its place and its column.
#[derive(Clone, Copy)]
pub struct CardRefusal {
    pub number: usize,
    pub place: usize,
    pub column: usize,
}

impl From<Unread> for CardRefusal {
    ghost from_gives = { λ u r. r ≡ card_refusal 3 u.card u.column };

    fn from(unread: Unread) -> CardRefusal {
        CardRefusal {
            number: 3,
            place: unread.card,
            column: unread.column,
        }
    }
}

// Refusal 6, and then 7, the U card before the FS cards.
fn limits_on(format: Format, outside: OutsideColumns, noted: Noted) -> Result<(), CardRefusal>
    ensures { result ≡ limits_of (format_of format) outside noted }
{
    if noted.sixty_fifth != 0 {
        return Err(CardRefusal {
            number: 6,
            place: noted.sixty_fifth,
            column: 0,
        });
    }
    let column = u_outside(format, outside);
    if column != 0 {
        return Err(CardRefusal {
            number: 7,
            place: 1,
            column,
        });
    }
    if noted.beyond != 0 {
        return Err(CardRefusal {
            number: 7,
            place: noted.beyond,
            column: noted.beyond_column,
        });
    }
    Ok(())
}

// Refusal 4, the U card before the FS cards, then 5, and then 6 and 7.
fn refusal_on(
    parameters: Parameters,
    outside: OutsideColumns,
    noted: Noted,
) -> Result<(), CardRefusal>
    ensures { result ≡ card_refusal_of parameters outside noted }
{
    if parameters.twice != 0 {
        return Err(CardRefusal {
            number: 4,
            place: 1,
            column: parameters.twice,
        });
    }
    if noted.second_cv != 0 {
        return Err(CardRefusal {
            number: 4,
            place: noted.second_cv,
            column: noted.second_column,
        });
    }
    if !is_complete(parameters) {
        return Err(CardRefusal {
            number: 5,
            place: 1,
            column: 0,
        });
    }
    limits_on(parameters.format, outside, noted)
}

// ---- decks

// What the cards ask for, where they are not refused.
fn asked_for(parameters: Parameters, noted: Noted, fs: usize) -> Asked
    ensures { result ≡ asked_for parameters noted fs }
{
    Asked {
        mode: parameters.mode,
        format: parameters.format,
        input: keys::joined(parameters.input),
        output: parameters.output,
        first: parameters.first,
        key: noted.key,
        count: noted.count,
        fs,
        cv: noted.cv,
        keyed: noted.keyed,
    }
}

// What a plan holds where nothing is asked for, since its deck is refused.
pub fn nothing_asked() -> Asked
    ensures { result ≡ nothing_asked }
{
    Asked {
        mode: Mode::TC,
        format: Format::FF,
        input: Size::One { g: 0 },
        output: Size::One { g: 0 },
        first: 0,
        key: 0,
        count: 0,
        fs: 0,
        cv: 0,
        keyed: 0,
    }
}

// The deck whose cards are in order, with so many FS cards.
fn read_ordered(deck: &[u8], fs: usize, row: &mut [u16; 320]) -> Result<Asked, CardRefusal>
    requires in_order { InOrder deck.now fs }
    requires row_value { row.old ≡ row_of [] }
    ensures { (length row.new ≡ 320) × DeckReads deck.now result row.new }
{
    let first = card_at(deck, 0);
    let CardAt::UAt { start, end, next } = first else {
        // The first card of a deck in order is a U card.
        return Err(CardRefusal {
            number: 2,
            place: 1,
            column: 0,
        });
    };
    let u = u_card(&deck[start..end], start + 1)?;
    let noted = fs_cards(deck, next, keys::key_length(u.state.input), row)?;
    refusal_on(u.state, u.outside, noted)?;
    Ok(asked_for(u.state, noted, fs))
}

// Reads a deck into a row that holds no fields yet; of a refused deck it may hold some.
fn read_cards(deck: &[u8], row: &mut [u16; 320]) -> Result<Asked, CardRefusal>
    requires { row.old ≡ row_of [] }
    ensures { (length row.new ≡ 320) × DeckReads deck.now result row.new }
{
    match lines::order(deck) {
        Ok(cards) => read_ordered(deck, cards - 2, row),
        Err(disorder) => Err(CardRefusal {
            number: disorder.number(),
            place: disorder.place(),
            column: 0,
        }),
    }
}

// Reads a deck. Its refusal is the lowest number that applies, at its first place, and there at its lowest column. The fields go into the lent row, which
// holds none before; a refused deck leaves none in it.
pub fn read_deck(deck: &[u8], row: &mut [u16; 320]) -> Result<Asked, CardRefusal>
    requires { row.old ≡ row_of [] }
    ensures { DeckSays deck.now result row.new }
{
    let read = read_cards(deck, row);
    if read.is_err() {
        rows::clear(row);
    }
    read
}

// ---- the card of a field

// The first of the FS cards from the line that begins at `from` on with which there are more than so many fields, or 0. All of them can be read.
fn card_over(deck: &[u8], from: usize, field: usize) -> usize
    requires all { All IsCard (cards_in (drop from deck.now)) }
    requires fs_fine { FsFine (fs_first (cards_in (drop from deck.now))) }
    ensures { (cs : List (List Item)) → items_from 2 (fs_first (cards_in (drop from deck.now))) ≡ fine cs → result ≡ get_or (field_cards 2 cs) field 0 }
{
    let mut row = [0u16; 320];
    let mut noted = nothing_noted(0);
    let mut card = 2;
    let mut at = from;
    loop {
        let found = card_at(deck, at);
        let CardAt::FsAt { start, end, next } = found else {
            return 0;
        };
        let Ok(more) = list(&deck[start..end], card, 7, noted, &mut row) else {
            // All of them can be read.
            return 0;
        };
        noted = more;
        if field < noted.count {
            return card;
        }
        card += 1;
        at = next;
    }
}

// The card on which a field of a deck stands, the first being field 0; 0 where the deck is refused, or has no such field.
// Kept 0 for none: the programs print the number as it is, and the rules' list of cards answers 0 past its end.
pub fn field_card(deck: &[u8], field: usize) -> usize
    ensures { result ≡ card_of_field (asked_of deck.now) field }
{
    let mut row = [0u16; 320];
    let Ok(_asked) = read_deck(deck, &mut row) else {
        return 0;
    };
    let first = card_at(deck, 0);
    let CardAt::UAt {
        start: _,
        end: _,
        next,
    } = first
    else {
        // The first card of an accepted deck is a U card.
        return 0;
    };
    card_over(deck, next, field)
}
