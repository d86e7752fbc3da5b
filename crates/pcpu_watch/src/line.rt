//! What the writer and the reader of a board send each other: what is published goes one way, and what was seen of it the other, each through a ring. No contract
//! speaks of what comes: a look is judged before it is kept.

use crate::looks::Look;
use crate::meeting::Meeting;
use rtrb::{Consumer, Producer, PushError, RingBuffer};
use sched_base::NoMemory;
use status_board::Told;
use std::alloc::Global;
use std::hint::spin_loop;
use std::sync::Wait;

/// Room in each ring. One moment after the other, one is enough.
const ROOM: usize = 2;

/// The writer's end: it tells, and takes in what was seen. It says too whether a reader is there.
#[derive(Drop)]
pub(crate) struct WriterEnd {
    told: Producer<Told>,
    seen: Consumer<Look>,
    met: bool,
}

/// The reader's end.
#[derive(Drop)]
pub(crate) struct ReaderEnd {
    told: Consumer<Told>,
    seen: Producer<Look>,
}

/// Both ends of a line. All memory for it is taken here.
pub(crate) fn open_line(alloc: Global) -> Result<(WriterEnd, ReaderEnd), NoMemory> {
    let (tell, told) = RingBuffer::new(alloc, ROOM)?;
    let (show, seen) = RingBuffer::new(alloc, ROOM)?;
    let writer = WriterEnd {
        told: tell,
        seen,
        met: false,
    };
    Ok((writer, ReaderEnd { told, seen: show }))
}

impl WriterEnd {
    /// Waits a while for the reader. Where it does not come, nothing is told.
    pub(crate) fn meet(&mut self, meeting: &Meeting) {
        self.met = meeting.wait_for_reader();
    }

    /// Tells the reader. False where none is there, or where it has not taken what it was told before: then it is not told.
    pub(crate) fn tell(&mut self, meeting: &Meeting, told: Told) -> bool {
        if !self.met {
            return false;
        }
        match self.told.push(told) {
            Ok(()) => {
                meeting.bell.ring();
                true
            }
            Err(PushError::Full(_)) => false,
        }
    }

    /// Waits for what the reader saw.
    pub(crate) fn wait_for_look<R: Wait>(&mut self, rt: &R, meeting: &Meeting) -> Look {
        let mut looks = 0u64;
        for _ in rt.forever() {
            if let Ok(look) = self.seen.pop() {
                meeting.writer.has_come(looks);
                return look;
            }
            if meeting.writer.lasts(looks) {
                spin_loop();
            } else {
                meeting.writer.give_up();
                let rung = meeting.bell.lie_down();
                if self.seen.is_empty() {
                    meeting.bell.sleep(rt, rung);
                }
                meeting.bell.get_up();
            }
            looks = looks.saturating_add(1);
        }
        unreachable!()
    }
}

impl ReaderEnd {
    /// Waits for what the writer tells. None where it is through.
    pub(crate) fn wait_to_be_told<R: Wait>(&mut self, rt: &R, meeting: &Meeting) -> Option<Told> {
        let mut looks = 0u64;
        for _ in rt.forever() {
            // What is told is large, so an empty ring is not asked for it.
            if !self.told.is_empty() {
                if let Ok(told) = self.told.pop() {
                    meeting.reader.has_come(looks);
                    return Some(told);
                }
            }
            if meeting.is_over() {
                return None;
            }
            if meeting.reader.lasts(looks) {
                spin_loop();
            } else {
                meeting.reader.give_up();
                let rung = meeting.bell.lie_down();
                if self.told.is_empty() && !meeting.is_over() {
                    meeting.bell.sleep(rt, rung);
                }
                meeting.bell.get_up();
            }
            looks = looks.saturating_add(1);
        }
        None
    }

    /// Shows the writer what was seen.
    pub(crate) fn show(&mut self, meeting: &Meeting, look: Look) {
        let _ = self.seen.push(look);
        meeting.bell.ring();
    }
}
