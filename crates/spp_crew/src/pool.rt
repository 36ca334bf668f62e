//! Threads that read the blocks that are posted.

ghost use Rattle.std.specs.Prelude.{◌≡◌, ◌≤◌, ◌<◌, ◌+◌, ℕ, length, IfOk, IfSome};

use crate::block::SoFar;
use crate::posted::{Found, Posted};
use crossbeam_deque::{Steal, Stealer, Worker};
use std::alloc::{AllocError, Global};
use std::sync::Arc;
use std::thread::{JoinHandle, Threads, yield_now};

/// How often a thread looks for a block, where none is posted, before it ends.
const MOST_LOOKS: u32 = 64;

/// How many blocks a pool has room for at first.
const ROOM: usize = 16;

/// A thread that reads blocks until none is posted.
#[derive(Drop)]
struct Reader {
    thread: JoinHandle<()>,
    /// Shared with the thread until either lets go of it: the thread as it ends, the pool where it wants it to end.
    alive: Arc<()>,
}

impl Reader {
    /// Waits for the thread, which ends once nothing is posted.
    fn join<R: Threads>(self, rt: &R) {
        let Reader { thread, alive } = self;
        drop(alive);
        thread.join(rt);
    }

    /// Whether the thread has ended, or is about to.
    fn has_ended(&self) -> bool {
        Arc::strong_count(&self.alive) == 1
    }
}

/// What a thread does: it reads blocks until none is posted.
#[derive(Drop)]
pub(crate) struct Task<A: SoFar> {
    posted: Stealer<Arc<Posted<A>>>,
    /// Shared with the pool: see [`Reader`].
    alive: Arc<()>,
}

impl<A: SoFar> Task<A> {
    /// Whether the pool still wants the thread where nothing is posted.
    fn is_wanted(&self) -> bool {
        Arc::strong_count(&self.alive) > 1
    }

    pub(crate) fn run(self, alloc: Global) {
        let mut looks = 0;
        // Bounded, so that it is proved to end.
        for _ in 0..u64::MAX {
            match self.posted.steal() {
                Steal::Success(block) => {
                    block.read(alloc);
                    looks = 0;
                }
                Steal::Retry => {}
                Steal::Empty if looks < MOST_LOOKS && self.is_wanted() => {
                    looks += 1;
                    yield_now();
                }
                Steal::Empty => break,
            }
        }
    }
}

/// A thread that is to be started.
#[derive(Drop)]
pub(crate) struct NewThread<A: SoFar> {
    /// What it does.
    pub(crate) task: Task<A>,
    /// What it shares with the pool.
    pub(crate) alive: Arc<()>,
}

/// The posted blocks that no thread has begun to read, and the threads that read them.
///
/// A thread that finds no block looks some times more, and ends then. So threads don't block, and to join one waits at most for the
/// blocks that are posted.
#[derive(Drop)]
pub(crate) struct Pool<A: SoFar> {
    posted: Worker<Arc<Posted<A>>>,
    threads: Vec<Reader>,
}

impl<A: SoFar> Pool<A> {
    /// With no thread.
    ///
    /// # Errors
    ///
    /// Where an allocation failed.
    pub(crate) fn new(alloc: Global) -> Result<Self, AllocError>
        ensures { IfOk result (λ pool. length pool.threads.items ≡ 0) }
    {
        Ok(Pool {
            posted: Worker::new_fifo(alloc, ROOM)?,
            threads: Vec::new(alloc),
        })
    }

    /// Posts a block, for any thread to read.
    ///
    /// # Errors
    ///
    /// Where an allocation failed.
    pub(crate) fn post(&mut self, block: Arc<Posted<A>>) -> Result<(), AllocError>
        ensures { self.new.threads ≡ self.old.threads }
    {
        self.posted.push(block).map_err(|_| AllocError)
    }

    /// Joins a thread that has ended, if there is one.
    fn join_ended<R: Threads>(&mut self, rt: &R)
        ensures { length self.new.threads.items ≤ length self.old.threads.items }
    {
        if let Some(ended) = self.threads.iter().position(Reader::has_ended) {
            self.threads.swap_remove(ended).join(rt);
        }
    }

    /// A thread to be started, where a posted block is still to be read and there are fewer threads than `most`; none where an
    /// allocation failed.
    pub(crate) fn new_thread<R: Threads>(
        &mut self,
        rt: &R,
        alloc: Global,
        most: usize,
    ) -> Option<NewThread<A>>
        ensures fewer { length self.new.threads.items ≤ length self.old.threads.items }
        ensures room { IfSome result (λ new_thread. length self.new.threads.items < most) }
    {
        if self.posted.is_empty() {
            return None;
        }
        if self.threads.len() >= most {
            self.join_ended(rt);
        }
        if self.threads.len() >= most {
            return None;
        }
        let alive = Arc::new(alloc, ()).ok()?;
        let task = Task {
            posted: self.posted.stealer().ok()?,
            alive: Arc::try_clone(&alive).ok()?,
        };
        Some(NewThread { task, alive })
    }

    /// With a thread more. Where there is no room to note it, this one waits for it.
    pub(crate) fn add_thread<R: Threads>(&mut self, rt: &R, thread: JoinHandle<()>, alive: Arc<()>)
        ensures { length self.new.threads.items ≤ length self.old.threads.items + 1 }
    {
        if let Err(refused) = self.threads.push(Reader { thread, alive }) {
            refused.value.join(rt);
        }
    }

    /// What a posted block comes to. While no thread has found it, this one reads posted blocks, perhaps that one; where none is
    /// left, it joins threads until one has.
    ///
    /// # Errors
    ///
    /// Where an allocation failed.
    pub(crate) fn wait_for<R: Threads>(
        &mut self,
        rt: &R,
        alloc: Global,
        block: &Posted<A>,
    ) -> Result<A::Part, AllocError>
        ensures found { IfOk result (A.is_part block.now.block) }
        ensures fewer { length self.new.threads.items ≤ length self.old.threads.items }
    {
        // Bounded, so that it is proved to end.
        for _ in 0..u64::MAX {
            if let Some(found) = block.take() {
                return found.part;
            }
            match self.posted.pop() {
                Some(other) => other.read(alloc),
                None => break,
            }
        }
        while let Some(reader) = self.threads.pop() {
            reader.join(rt);
            if let Some(found) = block.take() {
                return found.part;
            }
        }
        // Not reached: whoever took the block has left its part by now. No clause says so, so it is read here.
        A::part_of(alloc, &block.block)
    }

    /// Waits for the threads, and lets go of all.
    pub(crate) fn let_go<R: Threads>(self, rt: &R) {
        let Pool {
            mut posted,
            threads,
        } = self;
        for _ in 0..posted.len() {
            drop(posted.pop());
        }
        for reader in threads {
            reader.join(rt);
        }
    }
}
