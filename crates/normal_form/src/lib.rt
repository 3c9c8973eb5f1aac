// Normal words: jobs 3 and 5.
#![tactic(auto)]

ghost use Rattle.std.specs.Prelude.{◌≡◌, cond, ◌+◌, ◌≤◌, length};
ghost use Rattle.reading.specs.Held.{Blank};
ghost use Rattle.reading.specs.Texts.{ReadableText};
ghost use Rattle.writing.specs.Endings.{end_size};
ghost use Rattle.normal_form.specs.Meaning.{written, WordOutcome, NormaliseOutcome, PhaseFreeOutcome};
ghost use Rattle.normal_form.specs.Answers.{Answers, WritesText};

use exact::Refusal;
use reading::table::Table;
use reading::{EMPTY, Text};
use table::TABLE;
use writing::Ending;

mod table;

// What jobs 3 and 5 answer beside the lent bytes: how many of them were written, and how many of those are T letters.
#[derive(Clone, Copy)]
pub struct Counts {
    pub bytes: usize,
    pub tees: usize,
}

// The reader's table, each part of it right.
pub fn reader_table() -> Table<'static> {
    Table { bytes: &TABLE }
}

// How many bytes are written for a text: its own, or those of its syllables and of its tail without W, one I where that is nothing.
fn bytes_of(r: Text, e: Ending, phase: bool) -> usize
    requires { (r.reading.letters ≤ 12288) × (end_size e ≤ 64) }
    ensures { result ≡ cond phase r.bytes (r.reading.letters + end_size e) }
{
    if phase {
        r.bytes
    } else {
        r.reading.letters + e.size()
    }
}

// The word of a text, if there is room for it: its length and its T letters are known before a byte is written.
fn write(
    table: Table,
    items: &[u8],
    r: Text,
    phase: bool,
    buf: &mut [u8],
) -> Result<Counts, Refusal>
    requires readable { ReadableText items.now r }
    requires count_few { r.reading.count ≤ 4096 }
    ensures { WritesText phase items.now r buf.old (written result) buf.new }
{
    let reading = r.reading;
    let e = writing::ending_of(table, reading.tail, phase);
    let bytes = bytes_of(r, e, phase);
    if bytes > buf.len() {
        return Err(Refusal::Room);
    }
    let at = writing::put_syllables(buf, &items[..reading.count]);
    writing::put_ending(buf, at, e);
    Ok(Counts {
        bytes,
        tees: reading.count,
    })
}

// The answer to a word, by way of an empty array with a place for each letter.
fn read_and_write(
    table: Table,
    items: &mut [u8],
    word: &[u8],
    phase: bool,
    buf: &mut [u8],
) -> Result<Counts, Refusal>
    requires blank { Blank items.old }
    requires places { (length word.now ≤ 4096) × (length word.now ≤ length items.old) }
    ensures { WordOutcome (Answers phase) word.now buf.old (written result) buf.new }
{
    let r = reading::read_word(table, items, word)?;
    write(table, items, r, phase, buf)
}

// Jobs 3 and 5: with the W letters of the tail, or without. A truth value and no closure: it chooses two counts (`kept`, `bytes_of`).
fn answer(word: &[u8], phase: bool, buf: &mut [u8]) -> Result<Counts, Refusal>
    ensures { WordOutcome (Answers phase) word.now buf.old (written result) buf.new }
{
    if word.len() > exact::LONGEST {
        return Err(Refusal::Long);
    }
    let mut items = [EMPTY; exact::LONGEST];
    read_and_write(reader_table(), &mut items, word, phase, buf)
}

// Job 3: the normal word with the word's matrix.
pub fn normalise(word: &[u8], buf: &mut [u8]) -> Result<Counts, Refusal>
    ensures { NormaliseOutcome word.now buf.old (written result) buf.new }
{
    answer(word, true, buf)
}

// Job 5: the same word with no W in its tail, which is I where that leaves nothing.
pub fn phase_free(word: &[u8], buf: &mut [u8]) -> Result<Counts, Refusal>
    ensures { PhaseFreeOutcome word.now buf.old (written result) buf.new }
{
    answer(word, false, buf)
}
