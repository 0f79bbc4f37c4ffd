//! The core behind a lock.

ghost use Rattle.std.specs.Prelude.{◌<◌, length};

use crate::fault::StationFault;
use crate::rates::by_core::{Core, ask_one, comes_to_rest, event_of, new_core};
use flat_model::Event;
use ring_station::Ask;
use std::sync::{Mutex, Wait};
use std::thread::{Threads, map_indices};

/// Asks each script in a thread that takes the lock for each ask. Says whether all were answered,
/// and the machine came to rest.
pub(crate) fn ask_behind_mutex<R: AllocGlobal + Threads + Wait + Sync>(
    rt: &R,
    scripts: &[Vec<Ask>],
) -> Result<bool, StationFault> {
    let core = Mutex::new(new_core(rt.alloc())?);
    let are_answered = ask_each(rt, &core, scripts)?;
    Ok(are_answered && comes_to_rest(&mut core.lock(rt)))
}

fn ask_each<R: AllocGlobal + Threads + Wait + Sync>(
    rt: &R,
    core: &Mutex<Core>,
    scripts: &[Vec<Ask>],
) -> Result<bool, StationFault> {
    let answered = map_indices(
        rt,
        rt.alloc(),
        scripts.len(),
        &|place: usize| -> bool
            requires { place < length scripts.now }
        { asks_all(rt, core, scripts[place].as_slice()) },
    )?;
    Ok(answered.iter().all(|is_answered| *is_answered))
}

// Whether each ask was answered for good.
fn asks_all<R: Wait>(rt: &R, core: &Mutex<Core>, script: &[Ask]) -> bool {
    for ask in script {
        if let Some(event) = event_of(*ask)
            && !asks_behind(rt, core, event)
        {
            return false;
        }
    }
    true
}

// Holds the lock until the answer stands.
fn asks_behind<R: Wait>(rt: &R, core: &Mutex<Core>, event: Event) -> bool {
    let mut held = core.lock(rt);
    ask_one(&mut held, event).is_ok()
}
