//! A set of small numbers.

ghost use Rattle.std.specs.Prelude.{◌≡◌, ◌<◌, ◌≤◌, ◌||◌, ℕ, [], length, true, false, not, cond, nat_eq, OnOk, OnErr, IfOk};
ghost use Rattle.spp_site.specs.Marks.{is_marked, with_mark, without};

use std::alloc::{AllocError, Global};
use std::marker::Model;

/// A set of numbers, such as those of the sites or the functions of the frames that are open, or of rows. It takes a byte for each
/// number up to the greatest that was put in, or up to twice that where it grew bit by bit.
///
/// Contracts see a bit for each number; a number behind the last bit isn't in the set.
#[derive(Drop)]
pub struct Marks {
    bits: Vec<bool>,
}

impl Model for Marks {
    ghost use Rattle.std.specs.Prelude.{Bool, List};

    ghost Value = { List Bool };

    ghost view = { λ m. m.bits.items };
}

impl Marks {
    /// No numbers. It takes no memory.
    pub fn new(alloc: Global) -> Marks
        ensures { result ≡ [] }
    {
        Marks {
            bits: Vec::new(alloc),
        }
    }

    /// A set of the same numbers. It takes time linear in the greatest number that was put in.
    ///
    /// # Errors
    ///
    /// Where an allocation failed.
    pub fn copy(alloc: Global, marks: &Marks) -> Result<Marks, AllocError>
        ensures { IfOk result (λ copy. copy ≡ marks.now) }
    {
        let bits = Vec::from_slice(alloc, &marks.bits)?;
        Ok(Marks { bits })
    }

    /// Whether the number is in the set.
    #[inline(always)]
    pub fn has(&self, x: u32) -> bool
        ensures { result ≡ is_marked self.now x }
    {
        match self.bits.get(x as usize) {
            None => false,
            Some(bit) => *bit,
        }
    }

    /// Makes bits up to that of a number. It is seldom called, and inlined would take registers where it isn't.
    ///
    /// # Errors
    ///
    /// Where an allocation failed; the set then is as it was.
    #[cold]
    #[inline(never)]
    fn reach(&mut self, x: u32) -> Result<(), AllocError>
        requires { length self.old ≤ x }
        ensures room { OnOk result (x < length self.new) }
        ensures same { OnOk result ((y : ℕ) → is_marked self.new y ≡ is_marked self.old y) }
        ensures stays { OnErr result (self.new ≡ self.old) }
    {
        self.bits.resize(x as usize + 1, false)
    }

    /// Puts a number in, and tells whether it was missing. It takes constant time, amortized, behind a step for each number
    /// up to the greatest.
    ///
    /// # Errors
    ///
    /// Where an allocation failed; the set then is as it was.
    #[inline(always)]
    pub fn insert(&mut self, x: u32) -> Result<bool, AllocError>
        ensures missing { IfOk result (λ missing. missing ≡ not (is_marked self.old x)) }
        ensures added { OnOk result ((y : ℕ) → is_marked self.new y ≡ with_mark x (is_marked self.old) y) }
        ensures stays { OnErr result (self.new ≡ self.old) }
    {
        let place = x as usize;
        if self.bits.len() <= place {
            self.reach(x)?;
        }
        let missing = !self.bits[place];
        self.bits[place] = true;
        Ok(missing)
    }

    /// Puts a number in; see [`Marks::insert`].
    ///
    /// # Errors
    ///
    /// Where an allocation failed; the set then is as it was.
    #[inline(always)]
    pub fn add(&mut self, x: u32) -> Result<(), AllocError>
        ensures added { OnOk result ((y : ℕ) → is_marked self.new y ≡ with_mark x (is_marked self.old) y) }
        ensures stays { OnErr result (self.new ≡ self.old) }
    {
        self.insert(x)?;
        Ok(())
    }

    /// Puts a number in, if that is so; see [`Marks::add`].
    ///
    /// # Errors
    ///
    /// Where an allocation failed; the set then is as it was.
    #[inline(always)]
    pub fn add_if(&mut self, into: bool, x: u32) -> Result<(), AllocError>
        ensures added { OnOk result ((y : ℕ) → is_marked self.new y ≡ (is_marked self.old y || cond into (nat_eq x y) false)) }
        ensures stays { OnErr result (self.new ≡ self.old) }
    {
        if into {
            self.add(x)?;
        }
        Ok(())
    }

    /// Takes a number out.
    #[inline(always)]
    pub fn remove(&mut self, x: u32)
        ensures { (y : ℕ) → is_marked self.new y ≡ without true x (is_marked self.old) y }
    {
        if let Some(bit) = self.bits.get_mut(x as usize) {
            *bit = false;
        }
    }

    /// Takes a number out, if that is so, as where the outermost of the open frames that have it closes.
    #[inline(always)]
    pub fn remove_if(&mut self, out: bool, x: u32)
        ensures { (y : ℕ) → is_marked self.new y ≡ without out x (is_marked self.old) y }
    {
        if let Some(bit) = self.bits.get_mut(x as usize) {
            *bit &= !out;
        }
    }
}
