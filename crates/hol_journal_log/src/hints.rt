// Numbers under the marks of terms.
ghost use Rattle.std.specs.Prelude.{◌≡◌, IfErr};
ghost use Rattle.hol_model.specs.declared.fault.Fault.TheVariants.{Memory};

use hol_model::Fault;
use std::alloc::Global;

// How many places there are at first.
const FIRST_PLACES: usize = 256;

// What stands at a place where nothing was put.
const NONE: u32 = u32::MAX;

/// Numbers under marks, in as many places as were put or more. A number may take the place of an older one. Nothing is said of them: each
/// is tested where it is used.
#[derive(Drop)]
pub(crate) struct Hints {
    alloc: Global,
    places: Vec<(u32, u32)>,
    put: usize,
}

impl Hints {
    /// No numbers. Refusal: Memory.
    pub(crate) fn new(alloc: Global) -> Result<Hints, Fault>
        ensures { IfErr result (λ fault. fault ≡ Memory) }
    {
        Ok(Hints {
            alloc,
            places: vec![in alloc; (0, NONE); FIRST_PLACES]?,
            put: 0,
        })
    }

    /// The number under a mark, unless another one has its place.
    pub(crate) fn get(&self, mark: u32) -> Option<u32> {
        let (of, number) = *self.places.get(place_of(mark, self.places.len()))?;
        if of == mark && number != NONE {
            Some(number)
        } else {
            None
        }
    }

    /// Puts a number under a mark. Refusal: Memory.
    pub(crate) fn insert(&mut self, mark: u32, number: u32) -> Result<(), Fault>
        ensures { IfErr result (λ fault. fault ≡ Memory) }
    {
        if self.put >= self.places.len() {
            self.grow()?;
        }
        self.put = self.put.saturating_add(1);
        put(&mut self.places, mark, number);
        Ok(())
    }

    // Twice as many places.
    fn grow(&mut self) -> Result<(), Fault>
        ensures { IfErr result (λ fault. fault ≡ Memory) }
    {
        let mut places = vec![in self.alloc; (0, NONE); self.places.len().saturating_mul(2)]?;
        for (mark, number) in &self.places {
            if *number != NONE {
                put(&mut places, *mark, *number);
            }
        }
        self.places = places;
        Ok(())
    }
}

// The place of a mark among so many, a power of two.
fn place_of(mark: u32, count: usize) -> usize {
    mark as usize & count.wrapping_sub(1)
}

// Puts a number at the place of its mark.
fn put(places: &mut [(u32, u32)], mark: u32, number: u32) {
    if let Some(place) = places.get_mut(place_of(mark, places.len())) {
        *place = (mark, number);
    }
}
