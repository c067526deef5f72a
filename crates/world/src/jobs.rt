//! The jobs in flight, by their serials.

ghost use Rattle.std.specs.Prelude.{◌≡◌, ◌<◌, ◌==◌, ◌&&◌, Some, None, IfOk, IfSome, position};
ghost use Rattle.std.specs.List.{list_any};
ghost use Rattle.std.specs.FinMap as map;
ghost use Rattle.world.specs.Flights.{serial_of, is_asked};
ghost use Rattle.world.specs.declared.jobs.Flight.{Flight};

use blockdev::{Finished, Job};
use pc_types::Serial;
use pc_types::limits::MAX_IN_FLIGHT;
use std::alloc::{AllocError, Global};
use std::marker::Model;

/// A job of a request in flight.
#[derive(Drop, Debug)]
pub enum Flight {
    /// Its device call is to be made.
    Asked(Job),
    /// Its device call was made, and its request may end.
    Made(Finished),
}

impl Flight {
    ghost use Rattle.world.specs.Flights.{serial_of};

    fn serial(&self) -> Serial
        ensures { result.0 ≡ serial_of self.now }
    {
        match self {
            Flight::Asked(job) => job.serial(),
            Flight::Made(finished) => finished.serial(),
        }
    }
}

/// The jobs in flight. Their room is taken when the table is made, so that a request can begin without memory for it.
#[derive(Drop)]
pub struct Jobs {
    // each serial once
    flights: Vec<Flight>,
}

impl Model for Jobs {
    ghost use Rattle.std.specs.Prelude.{◌≤◌, map as map_list};
    ghost use Rattle.std.specs.Ordering.{nat_cmp};
    ghost use Rattle.std.specs.Coded.{codes, coded_ℕ};
    ghost use Rattle.std.specs.FinMap as map;
    ghost use Rattle.std.specs.Vec.{vec_capacity, vec_len};
    ghost use Rattle.pc_types.specs.declared.limits.TheConstants.{MAX_IN_FLIGHT};
    ghost use Rattle.world.specs.declared.jobs.Flight.{Flight};

    ghost Value = { map.FinMap nat_cmp Flight };

    ghost coded = { map.code coded_ℕ (Prim.hlevel codes) };

    ghost use Rattle.world.specs.Flights.{entry_of, EachOnce};

    ghost view = { λ a. map.from_entries (map_list entry_of a.flights.items) };

    ghost invariant = { λ a. EachOnce (map_list entry_of a.flights.items) × (vec_len a.flights ≤ MAX_IN_FLIGHT) × (MAX_IN_FLIGHT ≤ vec_capacity a.flights) };
}

impl Jobs {
    /// No job is in flight.
    pub fn new(alloc: Global) -> Result<Jobs, AllocError>
        ensures { IfOk result (λ jobs. jobs ≡ map.empty) }
    {
        let flights = Vec::with_capacity(alloc, MAX_IN_FLIGHT as usize)?;
        Ok(Jobs { flights })
    }

    /// Whether the device call of such a job is to be made.
    pub fn is_asked(&self, serial: Serial) -> bool
        ensures { result ≡ is_asked (map.get self.now serial.0) }
    {
        asked_in(&self.flights, serial)
    }

    /// Puts the job of a request that begins into the table, and answers its serial.
    pub fn ask(&mut self, job: Job) -> Serial
        requires apart { map.get self.old job.serial ≡ None }
        requires room { map.len self.old < MAX_IN_FLIGHT }
        ensures serial { result.0 ≡ job.serial }
        ensures table { self.new ≡ map.insert self.old job.serial (Flight.Asked job) }
    {
        let serial = job.serial();
        self.put(Flight::Asked(job));
        serial
    }

    /// Puts the job into the table.
    pub fn put(&mut self, flight: Flight)
        requires apart { map.get self.old (serial_of flight) ≡ None }
        requires room { map.len self.old < MAX_IN_FLIGHT }
        ensures { self.new ≡ map.insert self.old (serial_of flight) flight }
    {
        self.flights.push_reserved(flight);
    }

    /// Takes the job out of the table.
    pub fn take(&mut self, serial: Serial) -> Option<Flight>
        ensures job { result ≡ map.get self.old serial.0 }
        ensures rest { self.new ≡ map.remove self.old serial.0 }
        ensures serial { IfSome result (λ flight. serial_of flight ≡ serial.0) }
        ensures room { IfSome result (λ _. map.len self.new < MAX_IN_FLIGHT) }
    {
        let at = position_of(&self.flights, serial)?;
        Some(self.flights.remove(at))
    }
}

fn position_of(flights: &[Flight], serial: Serial) -> Option<usize>
    ensures { result ≡ position (λ (x : Flight). serial_of x == serial.0) flights.now }
{
    flights.iter().position(|flight| flight.serial() == serial)
}

fn asked_in(flights: &[Flight], serial: Serial) -> bool
    ensures { result ≡ list_any (λ (x : Flight). is_asked (Some x) && serial_of x == serial.0) flights.now }
{
    flights.iter().any(|flight| matches!(flight, Flight::Asked(_)) && flight.serial() == serial)
}
