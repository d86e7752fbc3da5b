//! What lies under the locks of a hall: the places of the pools, and what the tool keeps.

use cpupool::ToolState;
use lock_moves::{Names, Part};
use machine_parts::{PoolSlot, Spares};
use std::boxed::Box;

/// What the tool keeps of the machine, and the pools that wait for a command that makes one.
#[derive(Drop)]
pub struct ToolKept {
    pub tool: ToolState,
    pub spares: Spares,
}

/// What one lock guards: the place of the pool with the lock's number, or what the tool keeps.
#[derive(Drop)]
pub enum PartState {
    Pool(PoolSlot),
    Tool(Box<ToolKept>),
}

impl Part for PartState {
    ghost use Rattle.hall.specs.Values.{part_of_value, suits_value};

    ghost part = { part_of_value };

    ghost suits = { suits_value };

    fn names(&self) -> Names {
        match self {
            PartState::Pool(slot) => {
                let (res, dom) = slot.members();
                Names { res, dom }
            }
            PartState::Tool(kept) => Names {
                res: kept.tool.free_cores(),
                dom: 0,
            },
        }
    }
}
