//! The factors of a ring.

ghost use Rattle.std.specs.Prelude.{◌≡◌, ◌<◌, ◌≤◌, IfOk};
ghost use Rattle.case_maker.specs.Rings.{factor_by, ring_factors, ring_loss, share, ring_shift};

use market_data::FACTOR_ONE;
use market_model::{Factor, List, Memory};
use std::alloc::Global;

/// So many of so many parts, in 10^-9.
fn share(parts: usize, size: usize) -> i64
    requires parts { parts ≤ size }
    requires some { 0 < size }
    requires few { size ≤ 64 }
    ensures { result ≡ share parts size }
{
    (parts * FACTOR_ONE as usize / size) as i64
}

/// What flows on a line of all that a bus puts in.
fn shift_factor(size: usize, line: usize, bus: usize) -> Factor
    requires bus { bus < size }
    requires few { size ≤ 64 }
    ensures { result ≡ factor_by (ring_shift size) line bus }
{
    let value = if line < bus {
        -share(size - bus, size)
    } else {
        share(bus, size)
    };
    Factor {
        line,
        of: bus,
        value,
    }
}

/// What goes over to a line of what a lost one carried.
fn loss_factor(line: usize, lost: usize) -> Factor
    ensures { result ≡ factor_by ring_loss line lost }
{
    let value = if line == lost {
        0
    } else {
        -(FACTOR_ONE as i64)
    };
    Factor {
        line,
        of: lost,
        value,
    }
}

/// The shift factors of a ring, a row of buses for each line.
pub(crate) fn shift_factors(alloc: Global, size: usize) -> Result<List<Factor>, Memory>
    requires { size ≤ 64 }
    ensures { IfOk result (λ factors. factors ≡ ring_factors (ring_shift size) size) }
{
    let mut factors = List::new(alloc);
    for line in 0..size {
        for of in 0..size {
            factors.push(shift_factor(size, line, of))?;
        }
    }
    Ok(factors)
}

/// The loss factors of a ring, a row of lost lines for each line.
pub(crate) fn loss_factors(alloc: Global, size: usize) -> Result<List<Factor>, Memory>
    ensures { IfOk result (λ factors. factors ≡ ring_factors ring_loss size) }
{
    let mut factors = List::new(alloc);
    for line in 0..size {
        for of in 0..size {
            factors.push(loss_factor(line, of))?;
        }
    }
    Ok(factors)
}
