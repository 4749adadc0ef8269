//! A line between two windows that loses, delays and repeats, and the plain program beside them.
ghost use Rattle.std.specs.Prelude.{◌≡◌, ◌+◌, ◌^◌, ◌<◌, ◌≤◌, IfOk};

use super::plain::Plain;
use ack_window::{Decided, SendWindow, TakeWindow, Taken};
use arrayvec::ArrayVec;
use std::alloc::Global;
use std::process::Abort;
use std::test::Fail;

/// How often each thing was seen.
#[derive(Clone, Copy, Debug, Default)]
pub struct Seen {
    pub sent: u64,
    pub blocked: u64,
    pub fresh: u64,
    pub repeats: u64,
    pub old: u64,
    pub acknowledged: u64,
    pub lost: u64,
    pub passed_over: u64,
}

#[derive(Drop)]
pub struct Line {
    alloc: Global,
    sender: SendWindow<u32>,
    receiver: TakeWindow,
    plain: Plain,
    /// The number that arrives in a round to come, 0 for none.
    numbers: [u32; 128],
    /// The acknowledgement that arrives in a round to come.
    acks: [(u32, u128); 128],
    random: u64,
    pub seen: Seen,
}

impl Line {
    pub fn open(alloc: Global, version: u8) -> Result<Line, Fail>
        ensures { IfOk result (λ line. line.sender.outstanding.newest ≡ 0) }
    {
        let mut sender = SendWindow::open(alloc, 1)?;
        sender.restart(version);
        let plain = Plain::open(alloc, version)?;
        Ok(Line {
            alloc,
            sender,
            receiver: TakeWindow::new(version),
            plain,
            numbers: [0; 128],
            acks: [(0, 0); 128],
            random: 1,
            seen: Seen::default(),
        })
    }

    /// A number below 256, in a fixed sequence.
    fn draw(&mut self) -> u32
        ensures { self.new.sender ≡ self.old.sender }
    {
        self.random = self
            .random
            .wrapping_mul(6364136223846793005)
            .wrapping_add(1442695040888963407);
        (self.random >> 56) as u32
    }

    /// Sends a new number, or the newest again, which is lost, held or repeated on the way.
    pub fn send(&mut self, rt: &impl Abort, round: u32) -> Result<(), Fail>
        requires few { self.old.sender.outstanding.newest ≤ round }
        requires last { round < 2 ^ 31 }
        ensures { self.new.sender.outstanding.newest ≤ round + 1 }
    {
        let content = self.draw();
        assert_eq!(rt; self.sender.may_send(), self.plain.may_send());
        let number = if self.sender.may_send() {
            self.seen.sent = self.seen.sent.saturating_add(1);
            self.plain.send(content)?;
            self.sender.push(content)
        } else {
            self.seen.blocked = self.seen.blocked.saturating_add(1);
            let (newest, content) = self.sender.newest();
            assert_eq!(rt; (newest, *content), self.plain.newest());
            newest
        };
        let (fate, hold) = (self.draw(), self.draw());
        if fate >= 32 {
            self.put(round, number, if fate < 96 { hold % 8 } else { 0 });
        }
        if fate >= 224 {
            self.put(round, number, hold % 128);
        }
        Ok(())
    }

    fn put(&mut self, round: u32, number: u32, hold: u32)
        ensures { self.new.sender ≡ self.old.sender }
    {
        self.numbers[round.wrapping_add(hold) as usize % 128] = number;
    }

    /// Takes the number that arrives in the round, and sends back the acknowledgement, which may be lost or held.
    pub fn arrive(&mut self, rt: &impl Abort, round: u32)
        ensures { self.new.sender ≡ self.old.sender }
    {
        let place = round as usize % 128;
        let number = self.numbers[place];
        self.numbers[place] = 0;
        if number > 0 {
            let taken = self.receiver.take(number);
            assert_eq!(rt; taken, self.plain.take(number));
            self.seen.count(taken);
        }
        let ack = self.receiver.ack();
        assert_eq!(rt; ack, self.plain.ack());
        let (fate, hold) = (self.draw(), self.draw());
        let is_storm = round / 256 % 32 == 0;
        if fate >= 64 && !is_storm {
            let later = round.wrapping_add(if fate < 128 { hold % 16 } else { 0 });
            self.acks[later as usize % 128] = ack;
        }
    }

    /// Reads the acknowledgement that arrives in the round, and now and then one of a number that was not sent.
    pub fn acknowledge(&mut self, rt: &impl Abort, round: u32) -> Result<(), Fail>
        ensures { self.new.sender.outstanding.newest ≡ self.old.sender.outstanding.newest }
    {
        let place = round as usize % 128;
        let (mut high, mask) = self.acks[place];
        self.acks[place] = (0, 0);
        if self.draw() == 0 {
            high = high.saturating_add(100);
        }
        let mut found = ArrayVec::new();
        self.sender.read_ack(high, mask, &mut found);
        let expected = self.plain.read_ack(self.alloc, high, mask)?;
        assert_eq!(rt; found.as_slice(), expected.as_slice());
        self.seen
            .count_decided(found.as_slice(), high > self.plain.newest().0);
        Ok(())
    }
}

impl Seen {
    fn count(&mut self, taken: Taken) {
        match taken {
            Taken::Fresh => self.fresh = self.fresh.saturating_add(1),
            Taken::Repeat => self.repeats = self.repeats.saturating_add(1),
            Taken::Old => self.old = self.old.saturating_add(1),
        }
    }

    fn count_decided(&mut self, found: &[Decided<u32>], is_passed_over: bool) {
        for decided in found {
            if decided.lost {
                self.lost = self.lost.saturating_add(1);
            } else {
                self.acknowledged = self.acknowledged.saturating_add(1);
            }
        }
        if is_passed_over {
            self.passed_over = self.passed_over.saturating_add(1);
        }
    }
}
