// Slots: a letter added to a lent record of syllables, tail and bytes, and the length of the record's text. The record is believed only once it is
// told that letters give it.
#![tactic(auto)]

ghost use Rattle.std.specs.Prelude.{◌≡◌, ◌≤◌, IfErr};
ghost use Rattle.exact.specs.Meaning.Handed.{place};
ghost use Rattle.slot.specs.Meaning.{slot_of, answer_of, left, LengthOutcome, AddOutcome};
ghost use Rattle.slot.specs.Standing.{Standing};
ghost use Rattle.slot.specs.Ways.{MoreOutcome, six};

use exact::Refusal;
use reading::Text;
use reading::table::Table;

mod told;

// A text's numbers as they are lent.
fn put_rest(r: Text, rest: &mut [u64; 6])
    ensures { rest.new ≡ six r }
{
    let reading = r.reading;
    let tail = reading.tail;
    let code = tail.code as u64;
    *rest = [
        reading.count as u64,
        r.bytes as u64,
        code / 8,
        code / 4 % 2,
        code % 4,
        tail.phase as u64,
    ];
}

// A letter, by its number, more in a right record.
fn add_right(
    table: Table,
    number: u8,
    r: Text,
    syllables: &mut [u8; 4096],
    rest: &mut [u64; 6],
) -> Result<u64, Refusal>
    requires number_few { number ≤ 5 }
    requires standing { Standing (slot_of syllables.old rest.old) r }
    ensures outcome { MoreOutcome number (slot_of syllables.old rest.old) (left (answer_of result) (slot_of syllables.new rest.new)) }
    ensures placeless { IfErr result (λ e. place e ≡ 0) }
{
    let next = reading::append_gate(table, syllables, r, number)?;
    put_rest(next, rest);
    Ok(next.bytes as u64)
}

// The record with a letter more, and its length; the record stays as it was where the letter is refused. Two arrays and no struct: C lends both.
pub fn add(letter: u8, syllables: &mut [u8; 4096], rest: &mut [u64; 6]) -> Result<u64, Refusal>
    ensures outcome { AddOutcome letter (slot_of syllables.old rest.old) (left (answer_of result) (slot_of syllables.new rest.new)) }
    ensures placeless { IfErr result (λ e. place e ≡ 0) }
{
    let table = normal_form::reader_table();
    let r = told::check(table, syllables, rest).ok_or(Refusal::Slot)?;
    let number = table.number(letter).ok_or(Refusal::Letter(0))?;
    add_right(table, number, r, syllables, rest)
}

// The length of a record's text.
pub fn length(syllables: &[u8; 4096], rest: &[u64; 6]) -> Result<u64, Refusal>
    ensures outcome { LengthOutcome (slot_of syllables.now rest.now) (answer_of result) }
    ensures placeless { IfErr result (λ e. place e ≡ 0) }
{
    let table = normal_form::reader_table();
    let r = told::check(table, syllables, rest).ok_or(Refusal::Slot)?;
    Ok(r.bytes as u64)
}
