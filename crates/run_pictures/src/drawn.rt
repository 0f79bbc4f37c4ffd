//! The walk of a machine over events, drawn.

ghost use Rattle.std.specs.Prelude.{◌≡◌, length, OnOk, IfOk};
ghost use Rattle.std.specs.String.{string_bytes};
ghost use Rattle.machine_core.specs.AnyMachine.{after_event};
ghost use Rattle.run_pictures.specs.Drawn.{DrawsEvent, Follows, IsDrawn, is_whole};

use crate::asked::Asked;
use crate::drawing::{Drawing, Form};
use crate::step::Step;
use flat_model::Image;
use machine_core::ShapedMachine;
use std::alloc::{AllocError, Global};

/// The most events that are drawn.
pub const MOST_EVENTS: usize = 10_000;

/// Screens have the whole machine again after so many events.
pub const WHOLE_EVERY: usize = 100;

fn is_whole(count: usize, number: usize) -> bool
    ensures { result ≡ is_whole count number }
{
    number == count || number % WHOLE_EVERY == 0
}

fn draw_event(
    alloc: Global,
    machine: &mut ShapedMachine,
    count: usize,
    number: usize,
    asked: Asked,
    drawing: &mut Drawing,
) -> Result<(), AllocError>
    ensures state { machine.new ≡ after_event machine.old asked.event }
    ensures step { OnOk result
        (DrawsEvent count number machine.old asked drawing.old drawing.new) }
{
    let step = Step::new(machine, number, asked);
    drawing.draw(alloc, machine, &step, is_whole(count, number))
}

fn draw_events(
    alloc: Global,
    machine: &mut ShapedMachine,
    all: &[Asked],
    drawing: &mut Drawing,
) -> Result<(), AllocError>
    ensures { OnOk result (Follows (length all.now) 1 machine.old all.now drawing.old drawing.new) }
{
    for (k, asked) in all.iter().enumerate() {
        draw_event(alloc, machine, all.len(), k + 1, *asked, drawing)?;
    }
    Ok(())
}

pub(crate) fn draw_run(
    alloc: Global,
    machine: &mut ShapedMachine,
    image: &Image,
    form: Form,
    all: &[Asked],
) -> Result<String, AllocError>
    ensures { IfOk result
        (λ text. IsDrawn form image.now machine.old all.now (string_bytes text)) }
{
    let mut drawing = Drawing::new(alloc, machine, image, form)?;
    draw_events(alloc, machine, all, &mut drawing)?;
    drawing.finish()
}
