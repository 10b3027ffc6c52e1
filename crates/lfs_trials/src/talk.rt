//! A device in memory, the script that is gathered for its volume, and what is said of both.
use crate::device::{calls_left, device_of, new_device, stop};
use crate::order::{Order, read_order};
use anyhow::{Context, Result};
use lfs_device::MemDevice;
use lfs_script::fs::{MountFault, find_volume};
use lfs_script::use_volume;
use std::alloc::{AllocError, Global};

/// A device, the script that the next use of its volume runs, and what was said so far.
#[derive(Drop)]
pub struct Talk {
    device: Option<MemDevice>,
    script: String,
    pub said: Vec<u8>,
}

/// What is said of a volume that isn't mounted, for this fault.
fn not_mounted(alloc: Global, fault: MountFault) -> Result<String, AllocError> {
    format!(in alloc; "! not mounted: {fault:?}\n")
}

/// Mounts a device, runs a script on its volume, says all of it, and gives the device back.
fn used(
    alloc: Global,
    device: MemDevice,
    script: &str,
    said: &mut Vec<u8>,
) -> (Result<String, AllocError>, MemDevice) {
    match find_volume(device) {
        Ok(found) => {
            let (end, device) = use_volume(alloc, &mut script.as_bytes(), said, found);
            let line = match end {
                Ok(end) => format!(in alloc; "! {end:?}\n"),
                Err(fault) => not_mounted(alloc, fault),
            };
            (line, device.into_inner())
        }
        Err((fault, device)) => (not_mounted(alloc, fault), device),
    }
}

impl Talk {
    /// No device, and no script.
    pub fn new(alloc: Global) -> Talk {
        Talk {
            device: None,
            script: String::new(alloc),
            said: Vec::new(alloc),
        }
    }

    fn device(&mut self) -> Result<&mut MemDevice> {
        self.device.as_mut().context("no device")
    }

    fn say(&mut self, line: &str) -> Result<(), AllocError> {
        self.said.extend_from_slice(line.as_bytes())
    }

    /// Adds text to the script.
    pub fn add(&mut self, text: &str) -> Result<(), AllocError> {
        self.script.push_str(text)
    }

    fn use_device(&mut self, alloc: Global) -> Result<()> {
        let device = self.device.take().context("no device")?;
        let (line, device) = used(alloc, device, self.script.as_str(), &mut self.said);
        self.device = Some(device);
        self.script.clear();
        self.say(line?.as_str())?;
        Ok(())
    }

    /// Does what an order says.
    pub fn carry_out(&mut self, alloc: Global, order: Order) -> Result<()> {
        match order {
            Order::Device { sectors, unit } => {
                self.device = Some(device_of(alloc, sectors, unit, 0)?);
            }
            Order::New(volume) => self.device = Some(new_device(alloc, volume)?),
            Order::Fail { call, nth } => self.device()?.fail(call, nth),
            Order::Stop(write) => self.device()?.stop_at(write),
            Order::Use => self.use_device(alloc)?,
            Order::Crash(turns) => stop(alloc, self.device()?, turns.as_slice())?,
            Order::Rest(call) => {
                let count = calls_left(self.device()?, call);
                self.say(format!(in alloc; "{count}\n")?.as_str())?;
            }
            Order::Writes => {
                let count = self.device()?.writes();
                self.say(format!(in alloc; "{count}\n")?.as_str())?;
            }
        }
        Ok(())
    }

    /// Carries out the order of a line, or adds the line to the script.
    pub fn hear(&mut self, alloc: Global, line: &str) -> Result<()> {
        match line.strip_prefix("! ") {
            Some(words) => self.carry_out(alloc, read_order(alloc, words)?),
            None => {
                self.add(line)?;
                self.add("\n")?;
                Ok(())
            }
        }
    }
}
