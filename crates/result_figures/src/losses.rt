//! The marks of what a run lost.

ghost use Rattle.std.specs.Prelude.{◌≡◌, ◌++◌, IfOk, OnOk};
ghost use Rattle.result_figures.specs.Losses as losses;

use crate::mark::{Counted, Mark, Shade, Title};
use crate::scale::{FEW_STEPS, push_linear};
use crate::sweep::push_denials;
use flat_model::Cause;
use register_sweeps::Sizes;
use round_driver::{LostRounds, Table, Timing};
use std::alloc::{AllocError, Global};

// A cause, and the rounds lost to it.
type Loss = (Cause, u64);

// The causes that this repository's machines refuse with.
fn losses_of(lost: &LostRounds) -> [Loss; 7]
    ensures { result ≡ losses.losses_of lost.now }
{
    [
        (Cause::TagInUse, lost.tag_in_use),
        (Cause::RepliesFull, lost.replies_full),
        (Cause::TargetsFull, lost.targets_full),
        (Cause::NoRegister, lost.no_register),
        (Cause::SetPending, lost.set_pending),
        (Cause::QueueFull, lost.queue_full),
        (Cause::BankFull, lost.bank_full),
    ]
}

fn most_lost(all: &[Loss]) -> u64
    ensures { result ≡ losses.most_lost 0 all.now }
{
    let mut most = 0;
    for loss in all {
        most = most.max(loss.1);
    }
    most
}

fn push_loss(marks: &mut Vec<Mark>, loss: Loss) -> Result<(), AllocError>
    ensures { OnOk result (marks.new.items ≡ marks.old.items ++ losses.loss_marks loss) }
{
    marks.push(Mark::Cause(loss.0))?;
    marks.push(Mark::Bar {
        from: 0,
        to: loss.1,
        shade: Shade::Lost,
    })?;
    Ok(())
}

fn push_losses(marks: &mut Vec<Mark>, all: &[Loss]) -> Result<(), AllocError>
    ensures { OnOk result (marks.new.items ≡ marks.old.items ++ losses.losses_marks all.now) }
{
    for loss in all {
        push_loss(marks, *loss)?;
    }
    Ok(())
}

#[tactic(auto, unfolding(crate::specs::Losses::lost))]
fn push_lost(marks: &mut Vec<Mark>, all: &[Loss]) -> Result<(), AllocError>
    ensures { OnOk result (marks.new.items ≡ marks.old.items ++ losses.lost all.now) }
{
    push_linear(marks, most_lost(all), FEW_STEPS)?;
    push_losses(marks, all)
}

#[tactic(auto, unfolding(crate::specs::Losses::counts))]
fn push_counts(marks: &mut Vec<Mark>, table: &Table) -> Result<(), AllocError>
    ensures { OnOk result (marks.new.items ≡ marks.old.items ++ losses.counts table.now) }
{
    marks.push(Mark::Count(Counted::Rounds, table.rounds))?;
    marks.push(Mark::Count(Counted::Accepted, table.accepted))?;
    marks.push(Mark::Count(Counted::Hits, table.hits))?;
    marks.push(Mark::Count(Counted::Joins, table.joins))?;
    marks.push(Mark::Count(Counted::Misses, table.misses))?;
    Ok(())
}

#[tactic(auto, unfolding(crate::specs::Losses::heading))]
fn heading(
    alloc: Global,
    sizes: &Sizes,
    timing: Timing,
    table: &Table,
) -> Result<Vec<Mark>, AllocError>
    ensures { IfOk result (λ marks. marks.items ≡ losses.heading sizes.now timing table.now) }
{
    let mut marks = Vec::new(alloc);
    marks.push(Mark::Title(Title::Losses))?;
    marks.push(Mark::Machine(*sizes))?;
    marks.push(Mark::Times(timing))?;
    let requests = u128::from(table.accepted) + u128::from(table.denied);
    push_denials(&mut marks, table.denied, requests)?;
    Ok(marks)
}

/// A run's figure: a bar for each cause of lost rounds, and the rounds, and the requests that were
/// accepted, hits, joins and misses.
pub fn loss_marks(
    alloc: Global,
    sizes: &Sizes,
    timing: Timing,
    table: &Table,
) -> Result<Vec<Mark>, AllocError>
    ensures { IfOk result (λ marks. marks.items ≡ losses.figure sizes.now timing table.now) }
{
    let mut marks = heading(alloc, sizes, timing, table)?;
    push_lost(&mut marks, &losses_of(&table.lost))?;
    push_counts(&mut marks, table)?;
    Ok(marks)
}
