//! Numbers for temporary names that no two environments share.
ghost use Rattle.std.specs.Prelude.{◌≡◌, ◌+◌, ◌*◌, ◌%◌, ◌^◌};

use crate::clock::SystemClock;
use cacache_store::env::{Clock, Names};
use cacache_system::random_bits;
use std::marker::Model;
use std::process;
use std::random::RandomSource;
use std::rt::HostRuntime;

/// How far each number is from the one before.
const STRIDE: u64 = 65536;

/// Numbers for temporary files. The first is 64 random bits of the system; each next one is 65536 more, modulo 2^64.
///
/// So two environments give different numbers, whatever threads, processes, containers or machines they belong to,
/// except with a chance of less than one in 2^40 if each gives fewer than a million. Contracts see the number that
/// comes next.
#[derive(Debug, Drop)]
pub struct ProcessNames {
    next: u64,
}

impl Model for ProcessNames {
    ghost use Rattle.std.specs.Prelude.{ℕ};

    ghost Value = { ℕ };

    ghost view = { λ names. names.next };
}

impl ProcessNames {
    /// The numbers from 64 random bits on. If the system has none, they start at the present time and this process.
    pub fn new(rt: HostRuntime) -> ProcessNames {
        ProcessNames::random(&rt, SystemClock::new(rt).now(), process::id(rt.process()))
    }

    /// The numbers from 64 bits of a source on; if it fails, those that start at this time and process.
    pub fn random<R: RandomSource>(source: &R, millis: u64, process: u32) -> ProcessNames {
        match random_bits(source) {
            Ok(next) => ProcessNames { next },
            Err(_) => ProcessNames::starting(millis, process),
        }
    }

    /// The numbers that start at a time in milliseconds since the start of 1970 (UTC) and a process's number: the time
    /// times 65536, plus the number modulo 65536, all modulo 2^64. Two processes give different ones if their numbers
    /// differ modulo 65536.
    pub fn starting(millis: u64, process: u32) -> ProcessNames
        ensures { result ≡ (millis * 65536 + process % 65536) % 2 ^ 64 }
    {
        let process = u64::from(process) % STRIDE;
        ProcessNames {
            next: millis.wrapping_mul(STRIDE).wrapping_add(process),
        }
    }
}

impl Names for ProcessNames {
    fn fresh(&mut self) -> u64
        ensures value { result ≡ self.old }
        ensures next { self.new ≡ (self.old + 65536) % 2 ^ 64 }
        ensures own { self.new % 65536 ≡ self.old % 65536 }
    {
        let number = self.next;
        self.next = number.wrapping_add(STRIDE);
        number
    }
}
