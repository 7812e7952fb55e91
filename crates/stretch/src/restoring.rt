// Memory as it was before some steps, from their records. The machine's own back step would put back registers too, which
// a trial has by value and drops; copying them for each step took three times as long as the step.
ghost use Rattle.std.specs.Prelude.{◌≡◌, ◌+◌, ◌≤◌, length};
ghost use Rattle.machine.specs.Change.{put_word};
ghost use Rattle.machine.specs.Journal.{record_at, four_words};
ghost use Rattle.stretch.specs.Restore.{saved_back, record_back, restored};

// Two halfwords, the left one high.
// Kept: beside the machine's own, which has a `requires`: the rule is that no crate of the product offers such a function.
fn put_word(memory: &mut [u16], at: usize, word: u32)
    requires { at + 2 ≤ length memory.old }
    ensures { memory.new ≡ put_word at word memory.old }
{
    memory[at] = (word / 65536 % 65536) as u16;
    memory[at + 1] = (word % 65536) as u16;
}

// What a record saves of memory.
#[tactic(auto, unfolding(crate::specs::Restore::saved_back))]
fn put_saved(memory: &mut [u16], head: u32, place: u32, left: u32, right: u32)
    ensures { memory.new ≡ saved_back (four_words head place left right) memory.old }
{
    let at = place as usize;
    match head / 524288 % 8 {
        4 if at + 2 <= memory.len() => put_word(memory, at, left),
        5 if at + 4 <= memory.len() => {
            put_word(memory, at, left);
            put_word(memory, at + 2, right);
        }
        _ => {}
    }
}

// What record k saves of memory, where the journal has it.
#[tactic(auto, unfolding(crate::specs::Restore::record_back))]
fn put_record(memory: &mut [u16], journal: &[u32], k: usize)
    requires { k ≤ 8589934592 }
    ensures { memory.new ≡ record_back journal.now k memory.old }
{
    let i = k * 4;
    if i + 4 <= journal.len() {
        let head = journal[i];
        let place = journal[i + 1];
        let left = journal[i + 2];
        let right = journal[i + 3];
        put_saved(memory, head, place, left, right);
    }
}

// What so many records from the first on save of memory, the last one first.
pub fn restore(memory: &mut [u16], journal: &[u32], first: u32, count: u32)
    ensures { memory.new ≡ restored journal.now first count memory.old }
{
    for i in (0..count as usize).rev() {
        put_record(memory, journal, first as usize + i);
    }
}
