// The plan of a deck as entries for a lent table, each field with its part again; refusal 15.
#![tactic(auto)]

ghost use Rattle.std.specs.Prelude.{◌≡◌, List, [], map, ℕ, ◌≤◌, length};
ghost use Rattle.rules.specs.Lent.{entry_of, plan_into};
ghost use Rattle.terms.specs.Meaning.{field_of, entry_for};
ghost use Rattle.rows.specs.Kept.{fields_in};
ghost use Rattle.combinations.specs.Promise.{FieldFair, FieldsFair};
ghost use Rattle.plans.specs.Promise.{Plans};
ghost use Rattle.tables.specs.Promise.{OfDeck, part_on_card, place_on_card, on_card, table_of, not_filled, filled_for};

use plans::{DeckPlan, Planned};
use terms::{Entry, Field};

// ---- entries

// The part that a field of a plan reads, behind a key of so many bytes: what begins in the key is taken from it.
fn part_number(r: usize, key: usize) -> u8
    ensures { result ≡ part_on_card key r }
{
    u8::from(r <= key)
}

// Its first position as on the card: behind the key data count from 1 again.
fn card_place(r: usize, key: usize) -> usize
    ensures { result ≡ place_on_card key r }
{
    if r <= key { r } else { r - key }
}

fn entry(f: Field, key: usize) -> Entry
    requires { FieldFair f }
    ensures { result ≡ entry_for (entry_of (on_card key (field_of f))) }
{
    let kind = f.kind;
    let r = card_place(f.r, key) as u16;
    let input = f.input as u16;
    let output = f.output as u16;
    let t = f.t as u16;
    Entry {
        kind: terms::kind_number(kind),
        part: part_number(f.r, key),
        r,
        input,
        output,
        t,
    }
}

fn no_entries() -> [Entry; 64]
    ensures { result ≡ table_of [] }
{
    let none = Entry {
        kind: 0,
        part: 0,
        r: 0,
        input: 0,
        output: 0,
        t: 0,
    };
    [none; 64]
}

// The fields of a plan in order, behind a key of so many bytes.
fn entries(fields: &[u16], key: usize) -> [Entry; 64]
    requires { FieldsFair fields.now × (length fields.now ≤ 320) }
    ensures { result ≡ table_of (map (on_card key) (fields_in fields.now)) }
{
    let mut out = no_entries();
    for i in 0..fields.len() / 5 {
        let f = rows::field_at(fields, i);
        out[i] = entry(f, key);
    }
    out
}

// ---- the plan for a lent table

// What a plan answers, and the entries for a lent table: so many of them are to be stored, none where the deck is refused.
#[derive(Clone, Copy)]
pub struct TablePlan {
    pub answer: Planned,
    pub entries: [Entry; 64],
    pub store: usize,
}

fn not_filled(answer: Planned) -> TablePlan
    ensures { result ≡ not_filled answer }
{
    let entries = no_entries();
    TablePlan {
        answer,
        entries,
        store: 0,
    }
}

// Refusal 15: the table has fewer entries than the plan has fields.
fn filled_by(plan: DeckPlan, row: &[u16], room: usize) -> TablePlan
    requires { OfDeck plan row.now }
    ensures { (deck : List ℕ) → Plans deck plan row.now → result ≡ filled_for deck (plan_into room deck) }
{
    let answer = plan.answer;
    if answer.refusal != 0 {
        return not_filled(answer);
    }
    let count = answer.fields;
    if room < count {
        return not_filled(plans::refused(15, count, 0));
    }
    let end = 5 * count;
    let table = entries(&row[..end], plan.asked.key);
    TablePlan {
        answer,
        entries: table,
        store: count,
    }
}

// The plan of a deck for a table of so many entries.
pub fn plan_for(deck: &[u8], room: usize) -> TablePlan
    ensures { result ≡ filled_for deck.now (plan_into room deck.now) }
{
    let mut row = [0u16; 320];
    let plan = plans::plan_deck(deck, &mut row);
    filled_by(plan, &row, room)
}
