ghost use Rattle.std.specs.Prelude.{◌≡◌, ◌<◌, ◌≤◌, ◌+◌, ◌^◌, [], ◌∷◌, ◌++◌, length, None, Some, OnOk, IfOk, if◌then◌else◌, vec_len};
ghost use Rattle.takeover_core.specs.Messages.{request_in, grant_in, message_at, is_holder};
ghost use Rattle.takeover_core.specs.declared.keeper.Message.TheVariants as message;

use no_memory::NoMemory;
use std::alloc::Global;
use takeover_history::{Holder, Lease};

/// A message between the nodes and the keeper.
#[derive(Clone, Copy, Debug)]
pub(crate) enum Message {
    Request(Holder),
    Grant(Lease),
}

/// The keeper of the leases, and all messages so far: the holder of the lease granted last, its generation, and the first batch that
/// is not granted yet.
#[derive(Drop)]
pub(crate) struct Keeper {
    pub span: u16,
    pub holder: Option<Holder>,
    pub generation: u32,
    pub next: u32,
    pub messages: Vec<Message>,
}

impl Keeper {
    /// A keeper of leases of so many batches, with room for so many messages.
    pub(crate) fn open(alloc: Global, span: u16, room: u32) -> Result<Keeper, NoMemory>
        ensures span { IfOk result (λ keeper. keeper.span ≡ span) }
        ensures holder { IfOk result (λ keeper. keeper.holder ≡ None) }
        ensures generation { IfOk result (λ keeper. keeper.generation ≡ 0) }
        ensures next { IfOk result (λ keeper. keeper.next ≡ 0) }
        ensures messages { IfOk result (λ keeper. keeper.messages.items ≡ []) }
    {
        Ok(Keeper {
            span,
            holder: None,
            generation: 0,
            next: 0,
            messages: Vec::with_capacity(alloc, room as usize)?,
        })
    }

    /// Sends a request.
    pub(crate) fn request(&mut self, holder: Holder) -> Result<(), NoMemory>
        ensures messages { OnOk result (self.new.messages.items ≡ self.old.messages.items ++ message.Request holder ∷ []) }
        ensures span { self.new.span ≡ self.old.span }
        ensures holder { self.new.holder ≡ self.old.holder }
        ensures generation { self.new.generation ≡ self.old.generation }
        ensures next { self.new.next ≡ self.old.next }
    {
        self.messages.push(Message::Request(holder))?;
        Ok(())
    }

    /// The sender of the request of this number; None where it is no request.
    pub(crate) fn sender(&self, m: u32) -> Option<Holder>
        ensures { result ≡ request_in (message_at self.now.messages.items m) }
    {
        match self.messages.get(m as usize) {
            Some(Message::Request(holder)) => Some(*holder),
            _ => None,
        }
    }

    /// The lease that the message of this number grants; None where it is no grant.
    pub(crate) fn granted(&self, m: u32) -> Option<Lease>
        ensures { result ≡ grant_in (message_at self.now.messages.items m) }
    {
        match self.messages.get(m as usize) {
            Some(Message::Grant(lease)) => Some(*lease),
            _ => None,
        }
    }

    /// Grants the next lease, in the next generation where the holder changes.
    pub(crate) fn grant(&mut self, holder: Holder) -> Result<Lease, NoMemory>
        requires generation { self.old.generation + 1 < 2 ^ 32 }
        requires next { self.old.next + self.old.span < 2 ^ 32 }
        ensures lease { IfOk result (λ lease. lease ≡ record { holder = holder; generation = (if is_holder self.old.holder holder then 0 else 1) + self.old.generation; first = self.old.next }) }
        ensures messages { IfOk result (λ lease. self.new.messages.items ≡ self.old.messages.items ++ message.Grant lease ∷ []) }
        ensures span { self.new.span ≡ self.old.span }
        ensures holder { self.new.holder ≡ Some holder }
        ensures generation { self.new.generation ≡ (if is_holder self.old.holder holder then 0 else 1) + self.old.generation }
        ensures next { self.new.next ≡ self.old.next + self.old.span }
    {
        if self.holder != Some(holder) {
            self.generation += 1;
        }
        let lease = Lease {
            holder,
            generation: self.generation,
            first: self.next,
        };
        self.holder = Some(holder);
        self.next += u32::from(self.span);
        self.messages.push(Message::Grant(lease))?;
        Ok(lease)
    }
}
