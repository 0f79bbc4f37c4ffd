//! A waveform of a machine, as a value change dump (VCD).

ghost use Rattle.std.specs.Prelude.{◌≡◌, ◌++◌, map, OnOk, IfOk};
ghost use Rattle.std.specs.List.{flat_map, enumerate_from};
ghost use Rattle.std.specs.String.{string_bytes};
ghost use Rattle.run_pictures.specs.Waves as dump;

use crate::level::Level;
use crate::signal::{Signal, signals_of};
use crate::step::{Made, Step};
use machine_core::ShapedMachine;
use std::alloc::{AllocError, Global};

/// A signal, its value, and whether the step changed it.
#[derive(Clone, Copy)]
pub(crate) struct Wave {
    /// Its place in the order of declaration.
    pub(crate) number: usize,
    pub(crate) signal: Signal,
    pub(crate) level: Level,
    pub(crate) is_changed: bool,
}

impl Wave {
    fn first(machine: &ShapedMachine, number: usize, signal: Signal) -> Wave
        ensures { result ≡ dump.first_wave machine.now (number, signal) }
    {
        Wave {
            number,
            signal,
            level: signal.level(machine, None),
            is_changed: true,
        }
    }

    fn behind(&self, machine: &ShapedMachine, made: Made) -> Wave
        ensures { result ≡ dump.wave_behind made machine.now self.now }
    {
        let level = self.signal.level(machine, Some(made));
        Wave {
            level,
            is_changed: self.level != level,
            ..*self
        }
    }
}

fn first_waves(
    alloc: Global,
    machine: &ShapedMachine,
    signals: &[Signal],
) -> Result<Vec<Wave>, AllocError>
    ensures { IfOk result (λ v. v.items ≡ map (dump.first_wave machine.now) (enumerate_from 0 signals.now)) }
{
    signals
        .iter()
        .enumerate()
        .map(|(number, signal)| Wave::first(machine, number, *signal))
        .collect(alloc)
}

fn waves_behind(
    alloc: Global,
    machine: &ShapedMachine,
    made: Made,
    waves: &[Wave],
) -> Result<Vec<Wave>, AllocError>
    ensures { IfOk result (λ v. v.items ≡ map (dump.wave_behind made machine.now) waves.now) }
{
    waves
        .iter()
        .map(|wave| wave.behind(machine, made))
        .collect(alloc)
}

fn push_declarations(text: &mut String, waves: &[Wave]) -> Result<(), AllocError>
    ensures { OnOk result
        (string_bytes text.new ≡ string_bytes text.old ++ flat_map dump.declaration_text waves.now) }
{
    for wave in waves {
        let signal = wave.signal;
        let kind = signal.type_word();
        let width = signal.width();
        let number = wave.number;
        write!(text, "$var {kind} {width} s{number} {signal} $end\n")?;
    }
    Ok(())
}

fn push_change(text: &mut String, wave: &Wave) -> Result<(), AllocError>
    ensures { OnOk result (string_bytes text.new ≡ string_bytes text.old ++ dump.change_text wave.now) }
{
    if !wave.is_changed {
        return Ok(());
    }
    let level = wave.level;
    let number = wave.number;
    write!(text, "{level}s{number}\n")
}

fn push_changes(text: &mut String, waves: &[Wave]) -> Result<(), AllocError>
    ensures { OnOk result (string_bytes text.new ≡ string_bytes text.old ++ flat_map dump.change_text waves.now) }
{
    for wave in waves {
        push_change(text, wave)?;
    }
    Ok(())
}

fn opening_text(alloc: Global, waves: &[Wave]) -> Result<String, AllocError>
    ensures { IfOk result (λ text. string_bytes text ≡ dump.opening_text waves.now) }
{
    let mut text = String::from_str(alloc, "$timescale 1 ns $end\n$scope module kroft $end\n")?;
    push_declarations(&mut text, waves)?;
    text.push_str("$upscope $end\n$enddefinitions $end\n#0\n$dumpvars\n")?;
    push_changes(&mut text, waves)?;
    text.push_str("$end\n")?;
    Ok(text)
}

#[derive(Drop)]
pub(crate) struct Waveform {
    waves: Vec<Wave>,
    text: String,
}

impl Waveform {
    pub(crate) fn new(alloc: Global, machine: &ShapedMachine) -> Result<Waveform, AllocError>
        ensures { IfOk result (λ wave. dump.WaveOpens machine.now wave) }
    {
        let signals = signals_of(alloc, machine.sizes())?;
        let waves = first_waves(alloc, machine, signals.as_slice())?;
        let text = opening_text(alloc, waves.as_slice())?;
        Ok(Waveform { waves, text })
    }

    pub(crate) fn draw(
        &mut self,
        alloc: Global,
        machine: &ShapedMachine,
        step: &Step,
    ) -> Result<(), AllocError>
        ensures { OnOk result
            (dump.WaveGoesOn step.now.number machine.now step.now.made self.old self.new) }
    {
        self.waves = waves_behind(alloc, machine, step.made, self.waves.as_slice())?;
        let number = step.number;
        write!(&mut self.text, "#{number}\n")?;
        push_changes(&mut self.text, self.waves.as_slice())
    }

    pub(crate) fn finish(self) -> String
        ensures { string_bytes result ≡ string_bytes self.text }
    {
        self.text
    }
}
