//! The rules of the windows as a program over all numbers.
use ack_window::{Decided, Taken};
use std::alloc::{AllocError, Global};

/// What is known of one number.
#[derive(Clone, Copy, Default)]
struct Known {
    content: u32,
    came: bool,
    taken: bool,
    decided: bool,
}

/// All numbers, by number.
#[derive(Drop)]
pub struct Plain {
    /// How far a number may come after a greater one, and how far a new one may be above the oldest open one.
    reorder: u32,
    span: u32,
    numbers: Vec<Known>,
    newest: u32,
    highest: u32,
    oldest_open: u32,
}

impl Plain {
    pub fn open(alloc: Global, version: u8) -> Result<Plain, AllocError> {
        let (reorder, span) = if version == 1 { (4, 64) } else { (16, 128) };
        let mut numbers = Vec::new(alloc);
        numbers.push(Known::default())?;
        Ok(Plain {
            reorder,
            span,
            numbers,
            newest: 0,
            highest: 0,
            oldest_open: 1,
        })
    }

    fn known(&self, number: u32) -> Known {
        self.numbers
            .get(number as usize)
            .copied()
            .unwrap_or(Known::default())
    }

    /// The newest number, 0 for none, and its content.
    pub fn newest(&self) -> (u32, u32) {
        (self.newest, self.known(self.newest).content)
    }

    pub fn may_send(&self) -> bool {
        self.oldest_open > self.newest || self.newest - self.oldest_open < self.span
    }

    pub fn send(&mut self, content: u32) -> Result<(), AllocError> {
        let mut known = Known::default();
        known.content = content;
        self.numbers.push(known)?;
        self.newest = self.newest.saturating_add(1);
        Ok(())
    }

    pub fn take(&mut self, number: u32) -> Taken {
        let is_near = self.highest.saturating_sub(number) <= self.reorder;
        let Some(known) = self.numbers.get_mut(number as usize) else {
            return Taken::Old;
        };
        let came = known.came;
        known.came = true;
        if !is_near {
            return Taken::Old;
        }
        if came {
            return Taken::Repeat;
        }
        known.taken = true;
        self.highest = self.highest.max(number);
        Taken::Fresh
    }

    pub fn ack(&self) -> (u32, u128) {
        let mut mask = 0;
        for i in 0..self.span.min(128) {
            if i + 1 < self.highest && self.known(self.highest - 1 - i).taken {
                mask |= 1u128 << i;
            }
        }
        (self.highest, mask)
    }

    /// Every number that the acknowledgement decides.
    pub fn read_ack(
        &mut self,
        alloc: Global,
        high: u32,
        mask: u128,
    ) -> Result<Vec<Decided<u32>>, AllocError> {
        let mut found = Vec::new(alloc);
        if high > self.newest {
            return Ok(found);
        }
        let (reorder, span) = (self.reorder, self.span);
        for number in self.oldest_open..=self.newest {
            let Some(known) = self.numbers.get_mut(number as usize) else {
                continue;
            };
            let shown = is_shown(span, number, high, mask);
            if !known.decided && (shown || high.saturating_sub(number) > reorder) {
                known.decided = true;
                found.push(Decided {
                    number,
                    lost: !shown,
                    content: known.content,
                })?;
            }
        }
        self.find_oldest();
        Ok(found)
    }

    fn find_oldest(&mut self) {
        for number in self.oldest_open..=self.newest {
            if !self.known(number).decided {
                return;
            }
            self.oldest_open = number.saturating_add(1);
        }
    }
}

fn is_shown(span: u32, number: u32, high: u32, mask: u128) -> bool {
    if number >= high {
        return number == high;
    }
    let place = high - number - 1;
    place < span.min(128) && mask >> place & 1 == 1
}
