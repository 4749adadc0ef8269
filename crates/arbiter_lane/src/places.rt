//! The places in which what is told lies.
ghost use Rattle.std.specs.Prelude.{◌≡◌, ◌<◌, ◌≤◌, true, false, length, IfOk, set};
ghost use Rattle.arbiter_lane.specs.Places.{table_place, telling_at, with_telling};

use crate::NoMemory;
use crate::telling::Telling;
use fcp_framing::Told;
use std::alloc::Global;
use std::marker::Model;

/// How many places there are: numbers that are unresolved at once are less than so many apart, so no two have the same.
const PLACES: u32 = 129;

/// A place for each of the numbers that may be unresolved at once. Numbers go round in them from one place on, which is chosen
/// anew where no number is unresolved: so a number that is sent then lies where the last such one lay, and not in far memory.
#[derive(Drop)]
pub(crate) struct Places {
    first: u32,
    tellings: Vec<Telling>,
}

impl Model for Places {
    ghost use Rattle.std.specs.Prelude.{◌≡◌, ◌<◌, length};
    ghost use Rattle.arbiter_lane.specs.Places.{TellingPlaces as PlacesOf};

    ghost Value = { PlacesOf };

    ghost view = { λ places. record { first = places.first; tellings = places.tellings.items } };

    ghost invariant = { λ places. (places.first < 129) × (length places.tellings.items ≡ 129) };
}

impl Places {
    /// A blank in each place.
    pub(crate) fn open(alloc: Global) -> Result<Places, NoMemory> {
        Ok(Places {
            first: 0,
            tellings: blanks(alloc)?,
        })
    }

    /// What lies at the place of a number.
    pub(crate) fn at(&self, number: u32) -> &Telling
        ensures { result.now ≡ telling_at self.now number }
    {
        &self.tellings[place(self.first, number)]
    }

    /// Writes the slots of a batch into the place of a number, over what was there.
    pub(crate) fn put(&mut self, number: u32, batch: u32, told: &[Told])
        requires few { length told.now ≤ 64 }
        ensures written { self.new ≡ with_telling self.old number (record { batch = batch; told = told.now }) }
        ensures long { length self.old.tellings ≡ 129 }
    {
        let at = place(self.first, number);
        write(&mut self.tellings, at, batch, told);
    }

    /// Gives a number the place in front where no other is unresolved.
    pub(crate) fn choose_place(&mut self, number: u32, is_settled: bool)
        ensures tellings { self.new.tellings ≡ self.old.tellings }
        ensures kept { is_settled ≡ false → self.new ≡ self.old }
        ensures front { is_settled ≡ true → table_place self.new.first number ≡ 0 }
    {
        if is_settled {
            self.first = first_before(number);
        }
    }
}

/// The place of a number, where number 0 has this one.
fn place(first: u32, number: u32) -> usize
    requires { first < 129 }
    ensures place { result ≡ table_place first number }
    ensures within { result < 129 }
{
    let at = number % PLACES + first;
    if at < PLACES {
        at as usize
    } else {
        (at - PLACES) as usize
    }
}

/// The place of number 0 where this number has the one in front.
fn first_before(number: u32) -> u32
    ensures front { table_place result number ≡ 0 }
    ensures within { result < 129 }
{
    let beyond = number % PLACES;
    if beyond == 0 { 0 } else { PLACES - beyond }
}

/// A blank for each place.
fn blanks(alloc: Global) -> Result<Vec<Telling>, NoMemory>
    ensures { IfOk result (λ tellings. length tellings.items ≡ 129) }
{
    let mut tellings = Vec::with_capacity(alloc, PLACES as usize)?;
    for _ in 0..PLACES {
        tellings.push(Telling::blank())?;
    }
    Ok(tellings)
}

/// Writes the slots of a batch into a place, over what was there.
fn write(tellings: &mut [Telling], place: usize, batch: u32, told: &[Told])
    requires place { place < length tellings.old }
    requires few { length told.now ≤ 64 }
    ensures { tellings.new ≡ set tellings.old place (record { batch = batch; told = told.now }) }
{
    tellings[place].put(batch, told);
}
