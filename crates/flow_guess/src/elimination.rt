//! Angles in floats, by elimination without subtraction.
//!
//! A bus is taken out of the network by joining its neighbours with links that carry as much between them (the star-mesh transform;
//! Grassmann, Taksar and Heyman, Regenerative Analysis and Steady State Distributions for Markov Chains). No number is subtracted, so
//! none loses digits. Nothing is promised of the angles.

use crate::floats::to_float;
use crate::links::Link;
use plain_list::Memory;
use std::alloc::Global;

/// A bus that was taken out: the weights of its links to the buses that were left, and their sum.
#[derive(Drop, Debug)]
struct Pivot {
    weights: Vec<f64>,
    sum: f64,
}

/// The buses in the order in which they were taken out, all but the reference.
#[derive(Drop, Debug)]
pub(crate) struct Elimination {
    reference: usize,
    pivots: Vec<Pivot>,
}

/// The row of a bus: the reference is first, and has changed places with the first bus.
fn row_of(bus: usize, reference: usize) -> usize {
    if bus == reference {
        0
    } else if bus == 0 {
        reference
    } else {
        bus
    }
}

fn zeros(alloc: Global, count: usize) -> Result<Vec<f64>, Memory> {
    match vec![in alloc; 0.0; count] {
        Ok(zeros) => Ok(zeros),
        Err(_) => Err(Memory),
    }
}

fn pushed(numbers: &mut Vec<f64>, number: f64) -> Result<(), Memory> {
    match numbers.push(number) {
        Ok(()) => Ok(()),
        Err(_) => Err(Memory),
    }
}

/// Adds a number of times the weights.
fn add_times(sums: &mut [f64], weights: &[f64], times: f64) {
    for (sum, weight) in sums.iter_mut().zip(weights.iter()) {
        *sum += times * *weight;
    }
}

fn total(weights: &[f64]) -> f64 {
    let mut sum = 0.0;
    for weight in weights {
        sum += *weight;
    }
    sum
}

fn product(weights: &[f64], angles: &[f64]) -> f64 {
    let mut sum = 0.0;
    for (weight, angle) in weights.iter().zip(angles.iter()) {
        sum += *weight * *angle;
    }
    sum
}

/// Adds the weight of a link in the row of its later end.
fn join(rows: &mut Vec<Vec<f64>>, a: usize, b: usize, weight: f64) {
    let (low, high) = if a < b { (a, b) } else { (b, a) };
    if high < rows.len() && low < rows[high].len() {
        rows[high][low] += weight;
    }
}

/// For each row, the weights of the links to earlier ones.
fn rows_of(
    alloc: Global,
    buses: usize,
    reference: usize,
    links: &[Link],
    scale: i128,
) -> Result<Vec<Vec<f64>>, Memory> {
    let mut rows = Vec::new(alloc);
    for count in 0..buses {
        match rows.push(zeros(alloc, count)?) {
            Ok(()) => {}
            Err(_) => return Err(Memory),
        }
    }
    for link in links {
        let weight = to_float(scale) / to_float(link.reactance);
        join(
            &mut rows,
            row_of(link.from, reference),
            row_of(link.to, reference),
            weight,
        );
    }
    Ok(rows)
}

/// Joins the neighbours of a bus that is taken out.
fn mesh(rows: &mut [Vec<f64>], weights: &[f64], sum: f64) {
    for (row, weight) in rows.iter_mut().zip(weights.iter()) {
        if *weight > 0.0 {
            add_times(row.as_mut_slice(), weights, *weight / sum);
        }
    }
}

/// Takes out all buses but the reference.
pub(crate) fn eliminate(
    alloc: Global,
    buses: usize,
    reference: usize,
    links: &[Link],
    scale: i128,
) -> Result<Elimination, Memory> {
    let mut rows = rows_of(alloc, buses, reference, links, scale)?;
    let mut pivots = Vec::new(alloc);
    for _ in 1..buses {
        if let Some(weights) = rows.pop() {
            let sum = total(&weights);
            mesh(&mut rows, &weights, sum);
            match pivots.push(Pivot { weights, sum }) {
                Ok(()) => {}
                Err(_) => return Err(Memory),
            }
        }
    }
    Ok(Elimination { reference, pivots })
}

/// What each bus that is taken out hands to the angles: its own injection and what later ones left to it, by its weights in sum.
fn handed(
    alloc: Global,
    elimination: &Elimination,
    injections: &[f64],
) -> Result<Vec<f64>, Memory> {
    let mut rest = Vec::new(alloc);
    for row in 0..injections.len() {
        let bus = row_of(row, elimination.reference);
        let injection = if bus < injections.len() {
            injections[bus]
        } else {
            0.0
        };
        pushed(&mut rest, injection)?;
    }
    let mut shares = Vec::new(alloc);
    for pivot in &elimination.pivots {
        if let Some(injection) = rest.pop() {
            let share = injection / pivot.sum;
            add_times(&mut rest, &pivot.weights, share);
            pushed(&mut shares, share)?;
        }
    }
    Ok(shares)
}

/// The angles in the order of the rows, of which each bus has the injection of its place.
pub(crate) fn angles_of(
    alloc: Global,
    elimination: &Elimination,
    injections: &[f64],
) -> Result<Vec<f64>, Memory> {
    let shares = handed(alloc, elimination, injections)?;
    let mut angles = Vec::new(alloc);
    pushed(&mut angles, 0.0)?;
    for (pivot, share) in elimination.pivots.iter().rev().zip(shares.iter().rev()) {
        let angle = *share + product(&pivot.weights, &angles) / pivot.sum;
        pushed(&mut angles, angle)?;
    }
    Ok(angles)
}

/// The angle of a bus among those.
pub(crate) fn angle_of_bus(elimination: &Elimination, angles: &[f64], bus: usize) -> f64 {
    let row = row_of(bus, elimination.reference);
    if row < angles.len() { angles[row] } else { 0.0 }
}
