// The live threads.
ghost use Rattle.std.specs.Prelude.{◌≡◌, count_by, is_some, ◌+◌, ◌<◌, ◌&&◌, ℕ, IfOk, IfSome, None, Some, replicate, slice_set, option_map, pos, true, IsTrue, if◌then◌else◌};
ghost use Rattle.rt_constants.specs.declared.limits.TheConstants.{THREADS_LIMIT};
ghost use Rattle.rt_threads.specs.declared.threads.State.TheVariants as states;
ghost use Rattle.rt_threads.specs.Threads.{thread_at, is_live, with_thread, state_of, with_state, with_period, with_next, with_priority, given_registers, live_result, priority_result, is_plan, is_span, is_priority, has_period, if_done, free_number, created_result, created, IsBelow, NextFits};

use cpu_state::Context;
use outside_io::NoMemory;
use rt_constants::limits::{HIGHEST_PRIORITY, LATEST_START, SPAN_LIMIT, THREADS_LIMIT};
use rt_constants::{EAGAIN, EINVAL, failed};
use std::alloc::Global;
use std::marker::Model;

/// What a live thread does: it is ready, waits until its due, in ticks, or is suspended (RTLinux 3, pthread_suspend_np and
/// pthread_wait_np).
#[derive(Clone, Copy, Debug, PartialEq, Eq)]
pub enum State {
    Ready,
    Waiting(u64),
    Suspended,
}

/// A live thread: its own registers, its priority of 0 to 255, its state, its period in ticks (0 where it has none) and its next due,
/// a tick. A waiting thread may wait until another due than its next one.
#[derive(Clone, Copy, Debug)]
pub struct Thread {
    pub registers: Context,
    pub priority: u8,
    pub state: State,
    pub period: u32,
    pub next: u64,
}

/// The threads. Contracts see the list of 64 places, thread n at place n.
#[derive(Drop)]
pub struct Threads {
    places: Vec<Option<Thread>>,
}

impl Model for Threads {
    ghost use Rattle.std.specs.Prelude.{◌≡◌, List, Option, length};
    ghost use Rattle.rt_constants.specs.declared.limits.TheConstants.{THREADS_LIMIT};
    ghost use Rattle.rt_threads.specs.declared.threads.Thread.{Thread};

    ghost Value = { List (Option Thread) };

    ghost view = { λ t. t.places.items };

    ghost invariant = { λ t. length t.places.items ≡ THREADS_LIMIT };
}

fn is_span(ticks: u32) -> bool
    ensures { result ≡ is_span ticks }
{
    1 <= ticks && ticks <= SPAN_LIMIT
}

fn is_plan(start: u32, period: u32) -> bool
    ensures { result ≡ is_plan start period }
{
    is_span(period) && start <= LATEST_START
}

impl Threads {
    /// No thread, with room for 64.
    pub fn new(alloc: Global) -> Result<Threads, NoMemory>
        ensures { IfOk result (λ t. t ≡ replicate THREADS_LIMIT None) }
    {
        match Vec::from_slice(alloc, &[None; THREADS_LIMIT as usize]) {
            Ok(places) => Ok(Threads { places }),
            Err(_) => Err(NoMemory),
        }
    }

    // A thread, if it is live.
    fn thread(&self, id: u32) -> Option<Thread>
        ensures thread { result ≡ thread_at self.now id }
        ensures below { IfSome result (λ _. id < THREADS_LIMIT) }
    {
        if id < THREADS_LIMIT {
            self.places[id as usize]
        } else {
            None
        }
    }

    fn put(&mut self, id: u32, thread: Option<Thread>)
        requires { id < THREADS_LIMIT }
        ensures { self.new ≡ slice_set self.old id thread }
    {
        self.places[id as usize] = thread;
    }

    // The lowest number that isn't live.
    fn free_number(&self) -> Option<usize>
        ensures number { result ≡ free_number self.now }
        ensures below { IfSome result (λ i. i < THREADS_LIMIT) }
    {
        self.places.iter().position(|place| place.is_none())
    }

    /// A new thread at the lowest free number, which is the result: it is ready, with the priority and registers given, and has no
    /// period. -22 exactly where the priority is above 255, else -11 exactly where 64 threads are live, and then nothing changes
    /// (RTLinux 3, pthread_create; the limits are this project's own).
    pub fn create(&mut self, priority: u32, context: Context) -> i32
        ensures result { result ≡ created_result self.old priority }
        ensures below { IsBelow THREADS_LIMIT result }
        ensures threads { self.new ≡ created self.old priority context }
    {
        if priority > HIGHEST_PRIORITY {
            return failed(EINVAL);
        }
        match self.free_number() {
            Some(id) => {
                self.put(
                    id as u32,
                    Some(Thread {
                        registers: context,
                        priority: priority as u8,
                        state: State::Ready,
                        period: 0,
                        next: 0,
                    }),
                );
                id as i32
            }
            None => failed(EAGAIN),
        }
    }

    /// How many threads are live.
    pub fn count(&self) -> u32
        ensures { result ≡ count_by is_some self.now }
    {
        self.places.iter().filter(|place| place.is_some()).count() as u32
    }

    /// What a thread does; `None` exactly where the number isn't live.
    pub fn state(&self, id: u8) -> Option<State>
        ensures { result ≡ state_of (thread_at self.now id) }
    {
        match self.thread(u32::from(id)) {
            Some(thread) => Some(thread.state),
            None => None,
        }
    }

    /// The thread is gone: -22 exactly where it isn't live, and then nothing changes (RTLinux 3, pthread_delete_np).
    pub fn delete(&mut self, id: u32) -> i32
        ensures result { result ≡ live_result self.old id }
        ensures below { result ≡ pos 0 → id < THREADS_LIMIT }
        ensures threads { self.new ≡ (if is_live self.old id then slice_set self.old id None else self.old) }
    {
        match self.thread(id) {
            Some(_) => {
                self.put(id, None);
                0
            }
            None => failed(EINVAL),
        }
    }

    /// The thread is suspended: -22 exactly where it isn't live, and then nothing changes (RTLinux 3, pthread_suspend_np).
    pub fn suspend(&mut self, id: u32) -> i32
        ensures result { result ≡ live_result self.old id }
        ensures below { result ≡ pos 0 → id < THREADS_LIMIT }
        ensures threads { self.new ≡ (if is_live self.old id then with_thread id (with_state states.Suspended) self.old else self.old) }
    {
        match self.thread(id) {
            Some(thread) => {
                self.put(
                    id,
                    Some(Thread {
                        state: State::Suspended,
                        ..thread
                    }),
                );
                0
            }
            None => failed(EINVAL),
        }
    }

    /// A suspended or waiting thread becomes ready; a ready one stays so: -22 exactly where it isn't live, and then nothing changes
    /// (RTLinux 3, pthread_wakeup_np).
    pub fn wakeup(&mut self, id: u32) -> i32
        ensures result { result ≡ live_result self.old id }
        ensures below { result ≡ pos 0 → id < THREADS_LIMIT }
        ensures threads { self.new ≡ (if is_live self.old id then with_thread id (with_state states.Ready) self.old else self.old) }
    {
        match self.thread(id) {
            Some(thread) => {
                self.put(
                    id,
                    Some(Thread {
                        state: State::Ready,
                        ..thread
                    }),
                );
                0
            }
            None => failed(EINVAL),
        }
    }

    /// The thread has a period and its next due at `start`, both in ticks, and waits until then: -22 exactly where it isn't live, the
    /// period isn't 1 to 1,000,000,000 or the start is above 2,000,000,000, and then nothing changes (RTLinux 3,
    /// pthread_make_periodic_np; the limits are this project's own).
    pub fn periodic(&mut self, id: u32, start: u32, period: u32) -> i32
        ensures result { result ≡ if_done (is_live self.old id && is_plan start period) }
        ensures below { result ≡ pos 0 → id < THREADS_LIMIT }
        ensures threads { self.new ≡ (if is_live self.old id && is_plan start period then with_thread id (with_period start period) self.old else self.old) }
    {
        let planned = is_plan(start, period);
        match self.thread(id) {
            Some(thread) => {
                if !planned {
                    return failed(EINVAL);
                }
                self.put(
                    id,
                    Some(Thread {
                        state: State::Waiting(u64::from(start)),
                        period,
                        next: u64::from(start),
                        ..thread
                    }),
                );
                0
            }
            None => failed(EINVAL),
        }
    }

    /// The thread's next due grows by its period, and it waits until that: -22 exactly where it isn't live or has no period, and then
    /// nothing changes (RTLinux 3, pthread_wait_np).
    pub fn wait(&mut self, id: u32) -> i32
        requires { NextFits (thread_at self.old id) }
        ensures result { result ≡ if_done (has_period (thread_at self.old id)) }
        ensures below { result ≡ pos 0 → id < THREADS_LIMIT }
        ensures threads { self.new ≡ (if has_period (thread_at self.old id) then with_thread id with_next self.old else self.old) }
    {
        match self.thread(id) {
            Some(thread) => {
                if thread.period == 0 {
                    return failed(EINVAL);
                }
                let next = thread.next + u64::from(thread.period);
                self.put(
                    id,
                    Some(Thread {
                        state: State::Waiting(next),
                        next,
                        ..thread
                    }),
                );
                0
            }
            None => failed(EINVAL),
        }
    }

    /// The thread waits so many ticks from `now` on, and its period and next due stay: -22 exactly where it isn't live or the ticks
    /// aren't 1 to 1,000,000,000, and then nothing changes (POSIX, nanosleep; ticks and the limit are this project's own).
    pub fn sleep(&mut self, id: u32, now: u32, ticks: u32) -> i32
        ensures result { result ≡ if_done (is_live self.old id && is_span ticks) }
        ensures below { result ≡ pos 0 → id < THREADS_LIMIT }
        ensures threads { self.new ≡ (if is_live self.old id && is_span ticks then with_thread id (with_state (states.Waiting (now + ticks))) self.old else self.old) }
    {
        let fits = is_span(ticks);
        match self.thread(id) {
            Some(thread) => {
                if !fits {
                    return failed(EINVAL);
                }
                self.put(
                    id,
                    Some(Thread {
                        state: State::Waiting(u64::from(now) + u64::from(ticks)),
                        ..thread
                    }),
                );
                0
            }
            None => failed(EINVAL),
        }
    }

    /// The thread has this priority: -22 exactly where it isn't live or the priority is above 255, and then nothing changes (POSIX,
    /// pthread_setschedprio).
    pub fn set_priority(&mut self, id: u32, priority: u32) -> i32
        ensures result { result ≡ if_done (is_live self.old id && is_priority priority) }
        ensures below { result ≡ pos 0 → id < THREADS_LIMIT }
        ensures threads { self.new ≡ (if is_live self.old id && is_priority priority then with_thread id (with_priority priority) self.old else self.old) }
    {
        match self.thread(id) {
            Some(thread) => {
                if priority > HIGHEST_PRIORITY {
                    return failed(EINVAL);
                }
                self.put(
                    id,
                    Some(Thread {
                        priority: priority as u8,
                        ..thread
                    }),
                );
                0
            }
            None => failed(EINVAL),
        }
    }

    /// The thread's priority; -22 exactly where it isn't live (POSIX, pthread_getschedparam).
    pub fn priority(&self, id: u32) -> i32
        ensures priority { result ≡ priority_result (thread_at self.now id) }
        ensures below { IsBelow 256 result }
    {
        match self.thread(id) {
            Some(thread) => i32::from(thread.priority),
            None => failed(EINVAL),
        }
    }

    /// A waiting thread becomes ready.
    pub fn release(&mut self, id: u8)
        requires { IsTrue (is_live self.old id) }
        ensures { self.new ≡ with_thread id (with_state states.Ready) self.old }
    {
        if let Some(thread) = self.thread(u32::from(id)) {
            self.put(
                u32::from(id),
                Some(Thread {
                    state: State::Ready,
                    ..thread
                }),
            );
        }
    }

    /// A live thread's registers.
    pub fn context(&self, id: u8) -> Context
        requires { IsTrue (is_live self.now id) }
        ensures { IfSome (thread_at self.now id) (λ thread. result ≡ thread.registers) }
    {
        match self.thread(u32::from(id)) {
            Some(thread) => thread.registers,
            None => Context::new(0, 0),
        }
    }

    /// Sets a live thread's registers, and nothing else.
    pub fn set_context(&mut self, id: u8, context: &Context)
        requires { IsTrue (is_live self.old id) }
        ensures { self.new ≡ with_thread id (given_registers context.now) self.old }
    {
        if let Some(thread) = self.thread(u32::from(id)) {
            self.put(
                u32::from(id),
                Some(Thread {
                    registers: *context,
                    ..thread
                }),
            );
        }
    }
}
