//! What wakes the lanes and the timer of a service.
use crate::queues::QueueNotes;
use crate::semaphore::Semaphore;
use batch_desk::Answer;
use bt_base::NoMemory;
use bt_rows::event::Event;
use shared_desk::SeatQueues;
use std::alloc::Global;
use std::sync::atomic::{AtomicBool, Ordering};
use std::sync::{Arc, Mutex, Wait};
use std::time::Clock as Time;

/// The place of the timer's semaphore; that of a seat is its number.
const TIMER: u8 = 0;

/// The semaphores at which the lanes and the timer of a service wait. One lane of a seat is woken if the lowest queued run there is another one
/// after a call than before it. So one lane looks for it, and when it has taken it, the next one is woken if another run is queued there. The
/// timer is woken by each call. Permits that are added in the turn of a call wake nobody before `wake`.
#[derive(Drop)]
pub struct Wakes {
    semaphores: Vec<Semaphore>,
    notes: Mutex<QueueNotes>,
    seats: u8,
    lanes: u32,
    has_waiters: AtomicBool,
}

impl Wakes {
    /// The semaphores for this number of seats, each with this number of lanes. The only error is out of memory.
    pub fn new(alloc: Global, seats: u8, lanes: u8) -> Result<Arc<Wakes>, NoMemory> {
        let lanes = u32::from(lanes);
        let mut semaphores = Vec::new(alloc);
        semaphores.push(Semaphore::new(1))?;
        for _ in 0..seats {
            semaphores.push(Semaphore::new(lanes))?;
        }
        let wakes = Wakes {
            semaphores,
            notes: Mutex::new(QueueNotes::new(alloc, seats)?),
            seats,
            lanes,
            has_waiters: AtomicBool::new(false),
        };
        Ok(Arc::new(alloc, wakes)?)
    }

    /// Adds permits at a place.
    fn add<R: Wait>(&self, rt: &R, place: u8, count: u32) {
        if let Some(semaphore) = self.semaphores.get(usize::from(place)) {
            if semaphore.add(rt, count) {
                self.has_waiters.store(true, Ordering::SeqCst);
            }
        }
    }

    /// Notes the call that begins.
    pub fn begin<R: Wait>(&self, rt: &R, event: &Event) {
        self.notes.lock(rt).begin(event);
    }

    /// Notes what the call was answered, and adds a permit for the timer.
    pub fn answer<R: Wait>(&self, rt: &R, answer: &Answer) {
        self.notes.lock(rt).answer(answer);
        self.add(rt, TIMER, 1);
    }

    /// Adds a permit for a lane of each seat whose lowest queued run is another one than before the call, unless one of its lanes makes the call and
    /// looks next.
    pub fn look<R: Wait, Q: SeatQueues>(&self, rt: &R, queues: &Q) {
        let mut notes = self.notes.lock(rt);
        for seat in 1..=self.seats {
            if notes.is_woken(queues, seat) {
                self.add(rt, seat, 1);
            }
        }
        notes.finish();
    }

    /// Wakes those for whom permits were added.
    pub fn wake<R: Wait>(&self, rt: &R) {
        if self.has_waiters.swap(false, Ordering::SeqCst) {
            for semaphore in self.semaphores.iter() {
                semaphore.wake(rt);
            }
        }
    }

    /// Wakes all lanes and the timer.
    pub fn wake_all<R: Wait>(&self, rt: &R) {
        for semaphore in self.semaphores.iter() {
            semaphore.add(rt, self.lanes);
            semaphore.wake(rt);
        }
    }

    /// A lane of the seat waits until it is woken, and for so many milliseconds at most.
    pub fn wait_at<R: Wait + Time>(&self, rt: &R, seat: u8, longest_ms: u64) {
        if let Some(semaphore) = self.semaphores.get(usize::from(seat)) {
            semaphore.wait(rt, longest_ms);
        }
    }

    /// The timer waits until it is woken, and for so many milliseconds at most.
    pub fn wait_for_call<R: Wait + Time>(&self, rt: &R, longest_ms: u64) {
        self.wait_at(rt, TIMER, longest_ms);
    }
}
