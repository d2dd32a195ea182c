//! A room in memory.

ghost use Rattle.std.specs.Prelude.{◌≡◌, ◌↔◌, ℕ, ◌+◌, ◌-◌, ◌<◌, ◌≤◌, List, [], ◌∷◌, ◌++◌, is_ok, is_none, if◌then◌else◌, option_map, IfOk, OnOk, OnErr, IsNone, Some, None, Err};
ghost use Rattle.cide_io.specs.Faults.{raised};
ghost use Rattle.cide_io.specs.Rooms.{IsPassedOn};
ghost use Rattle.cide_io.specs.Memory.{MemoryRoom, named, look_up, opened, fresh_input, fresh_output, passed_on, shut_list};

use crate::calls::Calls;
use crate::faults::OpenFault;
use crate::memory_sink::MemSink;
use crate::memory_source::MemSource;
use crate::names::{end_all, open_next};
use crate::passing::pass_on;
use crate::rooms::Room;
use std::alloc::AllocError;
use std::marker::Model;

/// A room over objects in memory, which tells everything. An open fails where its number is listed or no object has that
/// name, and else at most for want of memory.
///
/// It is taken apart by [`MemRoom::close`], and is not dropped.
pub struct MemRoom {
    inputs: Vec<(String, MemSource)>,
    outs: Vec<(String, MemSink)>,
    shut: Vec<(String, MemSink)>,
    opens: Calls,
    open_outs: usize,
    read_faults: u64,
    write_faults: u64,
}

impl Model for MemRoom {
    ghost use Rattle.std.specs.Prelude.{◌+◌, ◌≤◌};
    ghost use Rattle.std.specs.Vec.{vec_len, vec_capacity};
    ghost use Rattle.cide_io.specs.Memory.{MemoryRoom, named, shut_list};

    ghost Value = { MemoryRoom };

    ghost view = { λ r. record {
      inputs = named r.inputs.items;
      outs = named r.outs.items;
      shut = shut_list r.shut.items;
      fails = r.opens.fails.items;
      opens = r.opens.made;
      open_outs = r.open_outs;
      read_faults = r.read_faults;
      write_faults = r.write_faults;
    } };

    // There is room in the list of shut outputs for each that is open.
    ghost invariant = { λ r. vec_len r.shut + r.open_outs ≤ vec_capacity r.shut };
}

impl MemRoom {
    /// A room of these inputs and outputs; of several with one name the first counts. Opens are numbered from 0, those of
    /// inputs and outputs together, and those listed fail; all opens from number 2^64 - 1 on bear that number.
    pub fn new(
        inputs: Vec<(String, MemSource)>,
        outs: Vec<(String, MemSink)>,
        fails: Vec<u64>,
    ) -> Self
        ensures { result ≡ record {
          inputs = named inputs.items;
          outs = named outs.items;
          shut = [];
          fails = fails.items;
          opens = 0;
          open_outs = 0;
          read_faults = 0;
          write_faults = 0;
        } }
    {
        MemRoom {
            inputs,
            outs,
            shut: Vec::new(*fails.allocator()),
            opens: Calls::new(fails),
            open_outs: 0,
            read_faults: 0,
            write_faults: 0,
        }
    }

    /// Adds an input behind the others. Where there is no memory the room is as before.
    pub fn add_input(&mut self, name: &str, bytes: &[u8], fails: &[u64]) -> Result<(), AllocError>
        ensures added { OnOk result (self.new ≡ record self.old { inputs = self.old.inputs ++ (name.now, record { left = bytes.now; fails = fails.now; calls = 0; faults = 0 }) ∷ [] }) }
        ensures same { OnErr result (self.new ≡ self.old) }
    {
        let alloc = *self.inputs.allocator();
        self.inputs.reserve(1)?;
        let name = String::from_str(alloc, name)?;
        let bytes = Vec::from_slice(alloc, bytes)?;
        let fails = Vec::from_slice(alloc, fails)?;
        self.inputs
            .push_reserved((name, MemSource::new(bytes, fails)));
        Ok(())
    }

    /// Adds an output behind the others. Where there is no memory the room is as before.
    pub fn add_out(&mut self, name: &str, fails: &[u64]) -> Result<(), AllocError>
        ensures added { OnOk result (self.new ≡ record self.old { outs = self.old.outs ++ (name.now, record { held = []; name = None; fails = fails.now; calls = 0; faults = 0 }) ∷ [] }) }
        ensures same { OnErr result (self.new ≡ self.old) }
    {
        let alloc = *self.outs.allocator();
        self.outs.reserve(1)?;
        let name = String::from_str(alloc, name)?;
        let fails = Vec::from_slice(alloc, fails)?;
        self.outs.push_reserved((name, MemSink::new(fails)));
        Ok(())
    }

    /// The outputs that were shut, in order, each beside the name by which it was opened.
    pub fn shut_outs(&self) -> &[(String, MemSink)]
        ensures { shut_list result.now ≡ self.now.shut }
    {
        self.shut.as_slice()
    }

    /// How many outputs are open.
    pub fn open_outs(&self) -> usize
        ensures { result ≡ self.now.open_outs }
    {
        self.open_outs
    }

    /// How many read faults were counted.
    pub fn read_faults(&self) -> u64
        ensures { result ≡ self.now.read_faults }
    {
        self.read_faults
    }

    /// How many write faults were counted.
    pub fn write_faults(&self) -> u64
        ensures { result ≡ self.now.write_faults }
    {
        self.write_faults
    }

    /// Ends the room and all that it keeps.
    pub fn close(self) {
        let MemRoom {
            inputs,
            outs,
            shut,
            opens: _,
            open_outs: _,
            read_faults: _,
            write_faults: _,
        } = self;
        end_all(inputs, |source: MemSource| source.close());
        end_all(outs, |sink: MemSink| sink.close());
        end_all(shut, |sink: MemSink| sink.close());
    }
}

impl Room for MemRoom {
    type In = MemSource;

    type Out = MemSink;

    ghost input = { λ room name. option_map (λ source. source.left) (look_up room.inputs name) };

    ghost shut_outputs = { λ room. Some room.shut };

    ghost open_outputs = { λ room. Some room.open_outs };

    ghost read_faults = { λ room. room.read_faults };

    ghost write_faults = { λ room. room.write_faults };

    /// Gives a copy of what is left of the input.
    fn open_in(&mut self, name: &str) -> Result<MemSource, OpenFault>
        // It fails exactly where the number of the open is listed or no object has that name.
        ensures fails { (result ≡ Err OpenFault.Failed) ↔ IsNone (opened self.old.fails self.old.opens self.old.inputs name.now) }
        ensures later { self.old.read_faults ≤ self.new.read_faults }
        ensures copy { IfOk result (λ source. Some source ≡ option_map fresh_input (opened self.old.fails self.old.opens self.old.inputs name.now)) }
        ensures after { self.new ≡ record self.old {
          opens = raised self.old.opens;
          read_faults = (if is_none (opened self.old.fails self.old.opens self.old.inputs name.now) then raised self.old.read_faults else self.old.read_faults);
        } }
    {
        match open_next(&mut self.opens, self.inputs.as_slice(), name) {
            Some(source) => match source.fresh() {
                Ok(copy) => Ok(copy),
                Err(_) => Err(OpenFault::NoMemory),
            },
            None => {
                self.read_faults = self.read_faults.saturating_add(1);
                Err(OpenFault::Failed)
            }
        }
    }

    /// Keeps room in the list of shut outputs for each that is open, since to shut one takes no memory.
    fn open_out(&mut self, name: &str) -> Result<MemSink, OpenFault>
        // It fails exactly where the number of the open is listed or no object has that name.
        ensures fails { (result ≡ Err OpenFault.Failed) ↔ IsNone (opened self.old.fails self.old.opens self.old.outs name.now) }
        ensures later { self.old.write_faults ≤ self.new.write_faults }
        ensures copy { IfOk result (λ out. Some out ≡ option_map (λ sink. fresh_output sink name.now) (opened self.old.fails self.old.opens self.old.outs name.now)) }
        ensures after { self.new ≡ record self.old {
          opens = raised self.old.opens;
          open_outs = (if is_ok result then self.old.open_outs + 1 else self.old.open_outs);
          write_faults = (if is_none (opened self.old.fails self.old.opens self.old.outs name.now) then raised self.old.write_faults else self.old.write_faults);
        } }
    {
        match open_next(&mut self.opens, self.outs.as_slice(), name) {
            Some(sink) => {
                if self.shut.reserve(self.open_outs + 1).is_err() {
                    return Err(OpenFault::NoMemory);
                }
                match sink.fresh(name) {
                    Ok(copy) => {
                        self.open_outs += 1;
                        Ok(copy)
                    }
                    Err(_) => Err(OpenFault::NoMemory),
                }
            }
            None => {
                self.write_faults = self.write_faults.saturating_add(1);
                Err(OpenFault::Failed)
            }
        }
    }

    fn shut_in(&mut self, source: MemSource)
        ensures cause { IsPassedOn source.faults self.old.read_faults self.new.read_faults }
        ensures after { self.new ≡ record self.old { read_faults = passed_on source.faults self.old.read_faults } }
    {
        pass_on(source.faults(), &mut self.read_faults);
        source.close();
    }

    fn shut(&mut self, out: MemSink)
        requires { 0 < self.old.open_outs }
        ensures cause { IsPassedOn out.faults self.old.write_faults self.new.write_faults }
        ensures after { self.new ≡ record self.old {
          shut = self.old.shut ++ (record { name = out.name; held = Some out.held }) ∷ [];
          open_outs = self.old.open_outs - 1;
          write_faults = passed_on out.faults self.old.write_faults;
        } }
    {
        pass_on(out.faults(), &mut self.write_faults);
        self.open_outs -= 1;
        self.shut.push_reserved(out.put_away());
    }
}
