//! Lists of numbers, each in 32 bits where all of them fit, so that twice as many are in a processor's caches.
ghost use Rattle.std.specs.Prelude.{◌≡◌, ◌<◌, ◌≤◌, ◌+◌, ◌^◌, ◌++◌, ◌∷◌, [], length, replicate, slice_index_or, slice_set, slice_range, take, IfOk, OnOk, OnErr};

use crate::no_memory::NoMemory;
use std::alloc::Global;
use std::marker::Model;

/// A list of numbers, with the most that a number may be until the list is widened. A number takes 4 bytes in a list that
/// holds none above 2^32 - 1 and was made for none, and 8 bytes in others.
#[derive(Drop)]
pub struct Numbers {
    form: Form,
}

#[derive(Drop)]
enum Form {
    Narrow(Vec<u32>),
    Wide(Vec<usize>),
}

impl Model for Numbers {
    ghost use Rattle.mars_base.specs.Numbers.{NumberList};

    ghost Value = { NumberList };

    ghost use Rattle.mars_base.specs.NumbersInside.{number_list};

    ghost view = { λ n. number_list n.form };
}

impl Numbers {
    /// No number, with room in width for numbers up to `most`. Takes no memory.
    pub fn new(alloc: Global, most: usize) -> Numbers
        ensures items { result.items ≡ [] }
        ensures most { most ≤ result.most }
    {
        if most > u32::MAX as usize {
            return Numbers {
                form: Form::Wide(Vec::new(alloc)),
            };
        }
        Numbers {
            form: Form::Narrow(Vec::new(alloc)),
        }
    }

    /// No number, with room for so many numbers up to `most`.
    pub fn with_capacity(alloc: Global, capacity: usize, most: usize) -> Result<Numbers, NoMemory>
        ensures items { IfOk result (λ n. n.items ≡ []) }
        ensures most { IfOk result (λ n. most ≤ n.most) }
    {
        if most > u32::MAX as usize {
            return Ok(Numbers {
                form: Form::Wide(Vec::with_capacity(alloc, capacity)?),
            });
        }
        Ok(Numbers {
            form: Form::Narrow(Vec::with_capacity(alloc, capacity)?),
        })
    }

    /// So many zeros, with room in width for numbers up to `most`.
    pub fn zeros(alloc: Global, count: usize, most: usize) -> Result<Numbers, NoMemory>
        ensures items { IfOk result (λ n. n.items ≡ replicate count 0) }
        ensures most { IfOk result (λ n. most ≤ n.most) }
    {
        if most > u32::MAX as usize {
            let wide: Vec<usize> = vec![in alloc; 0; count]?;
            return Ok(Numbers {
                form: Form::Wide(wide),
            });
        }
        let narrow: Vec<u32> = vec![in alloc; 0; count]?;
        Ok(Numbers {
            form: Form::Narrow(narrow),
        })
    }

    /// The same list once more.
    pub fn copy(&self) -> Result<Numbers, NoMemory>
        ensures { IfOk result (λ n. n ≡ self.now) }
    {
        let form = match &self.form {
            Form::Narrow(all) => Form::Narrow(all.clone()?),
            Form::Wide(all) => Form::Wide(all.clone()?),
        };
        Ok(Numbers { form })
    }

    /// How many numbers there are.
    #[inline]
    pub fn len(&self) -> usize
        ensures len { result ≡ length self.now.items }
        ensures few { result < 2 ^ 63 }
    {
        match &self.form {
            Form::Narrow(all) => all.len(),
            Form::Wide(all) => all.len(),
        }
    }

    /// The number at a place, counted from 0.
    #[inline]
    pub fn get(&self, place: usize) -> usize
        requires { place < length self.now.items }
        ensures { result ≡ slice_index_or self.now.items place 0 }
    {
        match &self.form {
            Form::Narrow(all) => all[place] as usize,
            Form::Wide(all) => all[place],
        }
    }

    /// Writes a number at a place.
    #[inline]
    pub fn set(&mut self, place: usize, number: usize)
        requires place_in { place < length self.old.items }
        requires fits { number ≤ self.old.most }
        ensures items { self.new.items ≡ slice_set self.old.items place number }
        ensures most { self.new.most ≡ self.old.most }
    {
        match &mut self.form {
            Form::Narrow(all) => {
                all[place] = number as u32;
            }
            Form::Wide(all) => {
                all[place] = number;
            }
        }
    }

    /// Makes room in width for numbers up to `most`. It is constant in time but where the list is widened, which happens
    /// once at most and is linear.
    #[inline]
    pub fn fit(&mut self, most: usize) -> Result<(), NoMemory>
        ensures items { self.new.items ≡ self.old.items }
        ensures most { OnOk result (most ≤ self.new.most) }
        ensures kept { self.old.most ≤ self.new.most }
    {
        if matches!(&self.form, Form::Narrow(_)) && most > u32::MAX as usize {
            self.widen()?;
        }
        Ok(())
    }

    /// Keeps the numbers in 8 bytes each from now on.
    #[cold]
    fn widen(&mut self) -> Result<(), NoMemory>
        ensures items { self.new.items ≡ self.old.items }
        ensures most { OnOk result (2 ^ 64 ≤ self.new.most + 1) }
        ensures kept { self.old.most ≤ self.new.most }
    {
        let wide = match &self.form {
            Form::Narrow(all) => widened(*all.allocator(), all)?,
            Form::Wide(_) => {
                return Ok(());
            }
        };
        self.form = Form::Wide(wide);
        Ok(())
    }

    /// Puts a number last, and widens the list where it doesn't fit.
    #[inline]
    pub fn push(&mut self, number: usize) -> Result<(), NoMemory>
        ensures items { OnOk result (self.new.items ≡ self.old.items ++ number ∷ []) }
        ensures most { self.old.most ≤ self.new.most }
        ensures err { OnErr result (self.new.items ≡ self.old.items) }
    {
        self.fit(number)?;
        match &mut self.form {
            Form::Narrow(all) => all.push(number as u32)?,
            Form::Wide(all) => all.push(number)?,
        }
        Ok(())
    }

    /// Takes all numbers away.
    pub fn clear(&mut self)
        ensures items { self.new.items ≡ [] }
        ensures most { self.new.most ≡ self.old.most }
    {
        match &mut self.form {
            Form::Narrow(all) => all.clear(),
            Form::Wide(all) => all.clear(),
        }
    }

    /// Keeps the first numbers, so many as are asked for, and takes the others away.
    pub fn truncate(&mut self, count: usize)
        ensures items { self.new.items ≡ take count self.old.items }
        ensures most { self.new.most ≡ self.old.most }
    {
        match &mut self.form {
            Form::Narrow(all) => all.truncate(count),
            Form::Wide(all) => all.truncate(count),
        }
    }

    /// The numbers from one place to the one before another.
    #[inline]
    pub fn part(&self, from: usize, to: usize) -> NumberPart<'_>
        requires order { from ≤ to }
        requires within { to ≤ length self.now.items }
        ensures { result ≡ slice_range self.now.items from to }
    {
        NumberPart {
            all: self,
            from,
            to,
        }
    }
}

/// Numbers that are next to each other in a list.
#[derive(Drop)]
pub struct NumberPart<'a> {
    all: &'a Numbers,
    from: usize,
    to: usize,
}

impl<'a> Model for NumberPart<'a> {
    ghost use Rattle.std.specs.Prelude.{ℕ, List, ◌≤◌, length, slice_range};

    ghost Value = { List ℕ };

    ghost view = { λ p. slice_range p.all.now.items p.from p.to };

    ghost invariant = { λ p. (p.from ≤ p.to) × (p.to ≤ length p.all.now.items) };
}

impl<'a> NumberPart<'a> {
    /// How many numbers there are.
    #[inline]
    pub fn len(&self) -> usize
        ensures { result ≡ length self.now }
    {
        self.to - self.from
    }

    /// The number at a place, counted from 0.
    #[inline]
    pub fn get(&self, place: usize) -> usize
        requires { place < length self.now }
        ensures { result ≡ slice_index_or self.now place 0 }
    {
        let _all = self.all.len();
        self.all.get(self.from + place)
    }
}

/// The same numbers, each in 8 bytes.
fn widened(alloc: Global, numbers: &[u32]) -> Result<Vec<usize>, NoMemory>
    ensures { IfOk result (λ all. all.items ≡ numbers.now) }
{
    Ok(
        numbers
            .iter()
            .map(|number| *number as usize)
            .collect(alloc)?,
    )
}
