// The journal's records.
ghost use Rattle.std.specs.Prelude.{◌≡◌, ◌+◌, ◌*◌, ◌<◌, ◌≤◌, true, length};
ghost use Rattle.machine.specs.Journal.{
  four_words,
  record_at,
  written,
  encoded_as,
  encoded,
  seat_in,
  says_change,
  in_register,
  change_from,
  decoded,
};
ghost use Rattle.machine.specs.Change.{registered, placed};
ghost use Rattle.machine.specs.Machine.{registers, before_of};
ghost use Rattle.machine.specs.Says.{says};
ghost use Rattle.machine.specs.Status.{packed, unpacked, Packable};

use crate::change::{Change, old};
use crate::check::condition_formed;
use crate::state::Status;
use crate::stop::Stop;
use crate::verdict::{Effect, Verdict};

// The four words of a record.
#[derive(Clone, Copy)]
pub struct Record {
    pub head: u32,
    pub place: u32,
    pub left: u32,
    pub right: u32,
}

pub fn read_record(journal: &[u32], k: u32) -> Record
    requires { k * 4 + 4 ≤ length journal.now }
    ensures { result ≡ record_at journal.now k }
{
    let i = k as usize * 4;
    Record {
        head: journal[i],
        place: journal[i + 1],
        left: journal[i + 2],
        right: journal[i + 3],
    }
}

#[tactic(auto, unfolding(crate::specs::Journal::written))]
pub fn write_record(journal: &mut [u32], k: u32, q: Record)
    requires { k * 4 + 4 ≤ length journal.old }
    ensures { journal.new ≡ written journal.old k q }
{
    let i = k as usize * 4;
    journal[i] = q.head;
    journal[i + 1] = q.place;
    journal[i + 2] = q.left;
    journal[i + 3] = q.right;
}

fn words(head: u32, place: u32, left: u32, right: u32) -> Record
    ensures { result ≡ four_words head place left right }
{
    Record {
        head,
        place,
        left,
        right,
    }
}

// Word 0 but for the kind and the seat.
// Kept: a function, since a `From` may ask nothing of what it is given; `unpack` stays beside it as its inverse.
#[tactic(auto, unfolding(crate::specs::Status::packed))]
fn pack(s: Status) -> u32
    requires { Packable s }
    ensures { (result ≡ packed s) × (result < 8388608) }
{
    s.pointer as u32 + 65536 * s.condition + 262144 * s.mask + 4194304 * (s.selector as u32)
}

// The seat whose step a record is of.
#[tactic(auto, unfolding(crate::specs::Journal::seat_in))]
pub fn seat_in(q: Record) -> u32
    ensures { result ≡ seat_in q }
{
    q.head / 8388608 % 2
}

#[tactic(auto, unfolding(crate::specs::Status::unpacked))]
fn unpack(head: u32) -> Status
    ensures { result ≡ unpacked head }
{
    Status {
        condition: head / 65536 % 4,
        mask: head / 262144 % 2,
        pointer: (head % 65536) as u16,
        selector: (head / 4194304 % 2) as u16,
    }
}

// The record of a change, `base` being word 0 but for its kind.
// Kept: kinds as numbers, here and where they are read, which are the record's (`encoded_as`, `change_from`).
#[tactic(auto, unfolding(crate::specs::Journal::encoded_as))]
fn encode_change(base: u32, ch: Change) -> Record
    requires { base < 16777216 }
    ensures { result ≡ encoded_as base ch }
{
    match ch {
        Change::Nothing => words(base, 0, 0, 0),
        Change::Float(r, w) => words(base + 524288, r, w, 0),
        Change::Pair(r, hi, lo) => words(base + 1048576, r, hi, lo),
        Change::General(r, w) => words(base + 1572864, r, w, 0),
        Change::Two(at, w) => words(base + 2097152, at, w, 0),
        Change::Four(at, hi, lo) => words(base + 2621440, at, hi, lo),
    }
}

fn encode(seat: u32, e: Effect) -> Record
    requires { (seat ≤ 1) × Packable e.status }
    ensures { result ≡ encoded seat e }
{
    let ch = e.change;
    let status = e.status;
    encode_change(pack(status) + 8388608 * seat, ch)
}

// The record of what an effect on a seat overwrites.
pub fn record_of(
    seat: u32,
    float: &[u32; 8],
    general: &[u32; 16],
    status: Status,
    e: Effect,
    memory: &[u16],
) -> Record
    requires { (registered e.change ≡ true) × (placed e.change (length memory.now) ≡ true) × (seat ≤ 1) × Packable status }
    ensures { result ≡ encoded seat (before_of (registers float.now general.now status) memory.now e) }
{
    let change = e.change;
    let before = Effect {
        change: old(float, general, status, memory, change),
        status,
    };
    encode(seat, before)
}

// A change of register r, where the record's `unused` word is 0. None, here and below, where the form is broken.
fn in_register(r: u32, unused: u32, ch: Change) -> Option<Change>
    ensures { says_change result ≡ in_register r unused ch }
{
    if 7 < r {
        return None;
    }
    if unused != 0 {
        return None;
    }
    Some(ch)
}

// Kind 0: no word but the first is in use.
#[tactic(auto, unfolding(crate::specs::Journal::change_from))]
fn unchanged(place: u32, left: u32, right: u32) -> Option<Change>
    ensures { says_change result ≡ change_from 0 place left right }
{
    if place != 0 {
        return None;
    }
    if left != 0 {
        return None;
    }
    if right != 0 {
        return None;
    }
    Some(Change::Nothing)
}

// Kind 4: word 3 is not in use.
#[tactic(auto, unfolding(crate::specs::Journal::change_from))]
fn two_halfwords(at: u32, word: u32, unused: u32) -> Option<Change>
    ensures { says_change result ≡ change_from 4 at word unused }
{
    if unused != 0 {
        return None;
    }
    Some(Change::Two(at, word))
}

#[tactic(auto, unfolding(crate::specs::Journal::change_from))]
fn decode_change(kind: u32, place: u32, left: u32, right: u32) -> Option<Change>
    ensures { says_change result ≡ change_from kind place left right }
{
    match kind {
        0 => unchanged(place, left, right),
        1 => in_register(place, right, Change::Float(place, left)),
        2 => in_register(place, 0, Change::Pair(place, left, right)),
        3 => in_register(place, right, Change::General(place, left)),
        4 => two_halfwords(place, left, right),
        5 => Some(Change::Four(place, left, right)),
        _ => None,
    }
}

#[tactic(auto, unfolding(crate::specs::Journal::decoded))]
pub fn decode(q: Record) -> Verdict
    ensures { says result ≡ decoded q }
{
    let status = unpack(q.head);
    if !condition_formed(status.condition) {
        return Err(Stop::RecordForm);
    }
    if 16777216 <= q.head {
        return Err(Stop::RecordForm);
    }
    let change = decode_change(q.head / 524288 % 8, q.place, q.left, q.right);
    change
        .map(|change| Effect { change, status })
        .ok_or(Stop::RecordForm)
}
