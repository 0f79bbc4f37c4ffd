//! The picture of a machine, and what an event changes of it.

ghost use Rattle.std.specs.Prelude.{◌≡◌, map, OnOk, IfOk, Some};
ghost use Rattle.flat_model.specs.Memory.{shown};
ghost use Rattle.flat_model.specs.Flat.{flat_step};
ghost use Rattle.run_pictures.specs.Cells.{first_cell, cell_behind};
ghost use Rattle.run_pictures.specs.Pictures as pictures;

use crate::cells::Cell;
use crate::place::{Place, places_of};
use crate::step::Made;
use flat_model::{FlatMemory, Image};
use machine_core::ShapedMachine;
use std::alloc::{AllocError, Global};

#[derive(Drop)]
pub(crate) struct Film {
    flat: FlatMemory,
    cells: Vec<Cell>,
}

fn first_cells(
    alloc: Global,
    machine: &ShapedMachine,
    flat: &FlatMemory,
    places: &[Place],
) -> Result<Vec<Cell>, AllocError>
    ensures { IfOk result (λ cells. cells.items ≡ map (first_cell machine.now (shown flat.now)) places.now) }
{
    places
        .iter()
        .map(|place| Cell::first(machine, flat, *place))
        .collect(alloc)
}

fn cells_behind(
    alloc: Global,
    machine: &ShapedMachine,
    flat: &FlatMemory,
    cells: &[Cell],
) -> Result<Vec<Cell>, AllocError>
    ensures { IfOk result (λ v. v.items ≡ map (cell_behind machine.now (shown flat.now)) cells.now) }
{
    cells
        .iter()
        .map(|cell| cell.behind(machine, flat))
        .collect(alloc)
}

fn step_flat(flat: &mut FlatMemory, made: Made) -> Result<(), AllocError>
    ensures { OnOk result (flat_step (shown flat.old) made.event made.answer ≡ Some (shown flat.new)) }
{
    flat.step(made.event, made.answer)
        .map_err(|_fault| AllocError)
}

impl Film {
    pub(crate) fn new(
        alloc: Global,
        machine: &ShapedMachine,
        image: &Image,
    ) -> Result<Film, AllocError>
        ensures { IfOk result (λ film. pictures.Begins image.now machine.now film) }
    {
        let sizes = machine.sizes();
        let places = places_of(alloc, sizes)?;
        let flat = image.flat_memory(alloc, sizes.words)?;
        let cells = first_cells(alloc, machine, &flat, places.as_slice())?;
        Ok(Film { flat, cells })
    }

    pub(crate) fn cells(&self) -> &[Cell]
        ensures { result.now ≡ self.now.cells.items }
    {
        self.cells.as_slice()
    }

    pub(crate) fn advance(
        &mut self,
        alloc: Global,
        machine: &ShapedMachine,
        made: Made,
    ) -> Result<(), AllocError>
        ensures { OnOk result
            (pictures.GoesOn machine.now made self.old self.new) }
    {
        step_flat(&mut self.flat, made)?;
        self.cells = cells_behind(alloc, machine, &self.flat, self.cells.as_slice())?;
        Ok(())
    }
}
