// A reply carries either a count or a refusal's number with its place. And bytes as numbers, which every record is made of.
// Which number a reason has is said in specs/Reply.antt.

#![tactic(auto)]

mod limits;

ghost use Rattle.std.specs.Prelude.{◌≡◌, ◌+◌, ◌≤◌, length};
ghost use Rattle.std.proofs.lemmas.List.Edits.{sets};
ghost use Rattle.reply.specs.Bytes.{two, two_bytes};
ghost use Rattle.reply.specs.Reply.{number, refused, said};

pub use limits::{
    ANSWER_ENTRIES, ANSWER_HEIGHT, BITMAP_ROOM, CURATOR_ENTRIES, CURATOR_HEIGHT, FILTER_ENTRIES,
    FILTER_HEIGHT, LISTED, NO_PARENT, NODES, OPEN_BRACKETS, RECORDS, REWRITTEN_ROOM, RULE_ENTRIES,
    RULE_HEIGHT, TABLE_ROOM, TEXT_BYTES,
};

// Why a call refuses: one case for each row of the list of refusals, with its number.
#[derive(Clone, Copy)]
pub enum Reason {
    ShortRoom = 1,
    RollLength = 2,
    NodeLabel = 3,
    SecondByte = 4,
    ParentField = 5,
    AnnotationLength = 6,
    FilterLength = 7,
    EntryMalformed = 8,
    EntryHeight = 9,
    AnnotationRecord = 10,
    PairOrder = 11,
    QueryTable = 12,
    TextLength = 13,
    NotInGrammar = 14,
    TooManyOpen = 15,
    TableTooLarge = 16,
    FileUnreadable = 17,
    TextTooLong = 18,
    TwoStars = 19,
    RulesMalformed = 20,
    ChildrenForbidden = 21,
}

#[derive(Clone, Copy)]
pub struct Refusal {
    pub reason: Reason,
    pub place: usize,
}

// "Either a count or a refusal's number with its place."
pub type Reply = Result<usize, Refusal>;

// The refusal for a reason, at a place.
pub fn refuse(reason: Reason, place: usize) -> Reply
    ensures { said result ≡ refused (number reason) place }
{
    Err(Refusal { reason, place })
}

// The number of a reason, as the list of refusals has it.
pub fn number_of(reason: Reason) -> u64
    ensures { result ≡ number reason }
{
    reason as u64
}

// "All two-byte numbers have the low byte first."
pub fn two_bytes(low: u8, high: u8) -> usize
    ensures { result ≡ two low high }
{
    usize::from(u16::from_le_bytes([low, high]))
}

// Writes a two-byte number at a place. Of a greater one these are the lowest two bytes, so that no call has to show that it fits.
pub fn put_two_bytes(out: &mut [u8], at: usize, number: usize)
    requires { at + 2 ≤ length out.old }
    ensures { out.new ≡ sets out.old at (two_bytes number) }
{
    out[at] = (number % 256) as u8;
    out[at + 1] = (number / 256 % 256) as u8;
}
