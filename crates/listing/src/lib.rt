// The answers of a query, listed in memory that the caller lends: four numbers each, once each,
// ascending from the start of the memory.
#![tactic(auto)]

ghost use Rattle.std.specs.Prelude.{◌≡◌, ℕ, ◌+◌, ◌-◌, ◌*◌, ◌<◌, ◌≤◌, true, ◌++◌, length, take, drop};
ghost use Rattle.std.specs.List.{insert as list_insert};
ghost use Rattle.source.specs.Rows.{ascending};
ghost use Rattle.listing.specs.Answers.{answers, places_in, cleared, count_listed, listing, Added, Spotted};

use std::cmp::Ordering;

// The most answers that are listed.
pub const MOST_ANSWERS: usize = 1024;

// Answers in lent memory: how many places it has for them, and how many are listed, or nothing once
// one found no place. The memory stays a slice of numbers: of a slice that `as_chunks_mut` cuts into
// cells, the library does not say what it ends as, and the lender has to know.
pub struct AnswerList<'m> {
    memory: &'m mut [u32],
    places: usize,
    listed: Option<usize>,
    ghost room: { 4 * places ≤ length memory.now },
    ghost within: { count_listed places listed ≤ places },
    ghost ascends: { ascending (answers (count_listed places listed) memory.now) ≡ true },
}

// How many answers have a place in the memory: one for each four numbers, at most 1,024.
fn count_places(memory: &[u32]) -> usize
    ensures value { result ≡ places_in memory.now }
{
    (memory.len() / 4).min(MOST_ANSWERS)
}

// Writes zero to every place for an answer; the numbers behind the places stay.
pub fn clear_places(memory: &mut [u32])
    ensures zeros { memory.new ≡ cleared (places_in memory.old) memory.old }
{
    let places = count_places(memory);
    memory[0..4 * places].fill(0);
}

// The place of an answer among the listed ones, or the place where it belongs. The first one is compared
// before the search, so that an answer that stands or belongs in front of all others is placed at once.
#[tactic(auto, using(crate::proofs::Searching::spotted_among))]
fn find_spot(memory: &[u32], count: usize, answer: &[u32; 4]) -> Result<usize, usize>
    requires room { 4 * count ≤ length memory.now }
    requires ascends { ascending (answers count memory.now) ≡ true }
    ensures value { Spotted (answers count memory.now) answer.now result }
{
    let (cells, _) = memory.as_chunks::<4>();
    let listed = &cells[..count];
    match listed.first().map(|first| answer.cmp(first)) {
        Some(Ordering::Less) => Err(0),
        Some(Ordering::Equal) => Ok(0),
        _ => listed.binary_search(answer),
    }
}

// Moves the answers from a place on by one, and writes an answer there.
#[tactic(auto, using(crate::proofs::Placing::put_answers, crate::proofs::Placing::put_behind))]
fn put(memory: &mut [u32], count: usize, place: usize, answer: &[u32; 4])
    requires inside { place ≤ count }
    requires room { 4 * count + 4 ≤ length memory.old }
    ensures listed { answers (count + 1) memory.new ≡ list_insert (answers count memory.old) place answer.now }
    ensures behind { drop (4 * (count + 1)) memory.new ≡ drop (4 * (count + 1)) memory.old }
{
    memory.copy_within(4 * place..4 * count, 4 * place + 4);
    memory[4 * place..4 * place + 4].copy_from_slice(answer);
}

// Puts an answer among the listed ones, if it is not one of them, and says how many are listed then;
// nothing where there is no place for it.
#[tactic(auto, using(source::proofs::Chunks::length_rows_in, crate::proofs::Ascents::absent, crate::proofs::Ascents::in_inserted, crate::proofs::Ascents::ascending_inserted))]
fn insert(memory: &mut [u32], places: usize, count: usize, answer: &[u32; 4]) -> Option<usize>
    requires room { 4 * places ≤ length memory.old }
    requires within { count ≤ places }
    requires ascends { ascending (answers count memory.old) ≡ true }
    ensures within { count_listed places result ≤ places }
    ensures ascends { ascending (answers (count_listed places result) memory.new) ≡ true }
    ensures added { Added answer.now (listing places memory.old (Some count)) (listing places memory.new result) }
{
    match find_spot(memory, count, answer) {
        Ok(_) => Some(count),
        Err(_) if count == places => None,
        Err(place) => {
            put(memory, count, place, answer);
            Some(count + 1)
        }
    }
}

impl<'m> AnswerList<'m> {
    ghost use Rattle.listing.specs.Gathering.{listing_of};

    // An empty list over the memory, with a place for each four numbers of it, at most 1,024.
    pub fn over(memory: &'m mut [u32]) -> AnswerList<'m>
        ensures lender { result.memory.ghost_name ≡ memory.entry.ghost_name }
        ensures memory { result.memory.now ≡ memory.old }
        ensures places { result.places ≡ places_in memory.old }
        ensures none { result.listed ≡ Some 0 }
    {
        let places = count_places(memory);
        AnswerList {
            memory,
            places,
            listed: Some(0),
        }
    }

    // Adds an answer, if it is not listed yet, or notes that there is no place for it.
    pub fn add(&mut self, answer: &[u32; 4])
        ensures lender { self.new.memory.ghost_name ≡ self.old.memory.ghost_name }
        ensures added { Added answer.now (listing_of self.old) (listing_of self.new) }
    {
        if let Some(count) = self.listed {
            self.listed = insert(self.memory, self.places, count, answer);
        }
    }

    // The list with an answer more, as `add` leaves it.
    pub fn with(mut self, answer: &[u32; 4]) -> AnswerList<'m>
        ensures lender { result.memory.ghost_name ≡ self.entry.memory.ghost_name }
        ensures added { Added answer.now (listing_of self.entry) (listing_of result) }
    {
        self.add(answer);
        self
    }

    // Gives the memory back, and says how many answers are listed; nothing where one found no
    // place.
    pub fn close(self) -> Option<usize>
        ensures memory { self.exit.0.now ≡ self.entry.memory.now }
        ensures listed { result ≡ self.entry.listed }
    {
        let AnswerList {
            memory: _,
            places: _,
            listed: count,
        } = self;
        count
    }
}
