//! Adding a crossing to a complex: its new objects, and what the two smoothings make of each old
//! one. The maps between them are made in the folder, by entries and columns, over bridges.

ghost use Rattle.std.specs.Prelude.{◌≡◌, ◌+◌, ◌^◌, ◌<◌, ◌≤◌, pos, ◌+ℤ◌, ◌≤ℤ◌, ◌++◌, length, true, false, IfOk, OnOk};
ghost use Rattle.scan_laws.specs.Adding.{IsAdding};
ghost use Rattle.scan_laws.specs.Complexes.{degree_of_labels};
ghost use Rattle.scan_laws.specs.Scans.{IsScanOf};
ghost use Rattle.tangle_scan.specs.Additions.{AreObjectsFrom, IsLayerTo, IsNextFront, IsReady, IsSplitAt, SucceedTo};
ghost use Rattle.tangle_scan.specs.Additions.{all_origins, code_in, copies, copy, done_in, objects_in, scan_in};
ghost use Rattle.tangle_scan.specs.Held.{IsComplexAt, IsComplexBehind, IsFront, is_alive_at, scan_at, scan_behind};

pub mod bridges;
pub mod children;
mod columns;
mod entries;

use crate::adding::children::Links;
use crate::adding::columns::columns_of;
use crate::complex::{Front, Object, TangleComplex};
use crossing_maps::site::near_arcs;
use crossing_maps::splitting::{Site, Split, split_at};
use kh_types::{NoMemory, ones};
use prime_field::PrimeField;
use std::alloc::Global;

/// A complex at a front, and the site of the crossing that is added to it.
#[derive(Clone, Copy)]
pub struct Adding<'a> {
    pub front: &'a Front,
    pub site: Site<'a>,
    pub complex: &'a TangleComplex,
}

/// What the two smoothings make of an object that is there, and at which places its first successor
/// of either stands; those with other labels follow it.
#[derive(Drop)]
pub struct Successors {
    pub zero: Split,
    pub one: Split,
    pub first: usize,
    pub second: usize,
}

/// The new objects, and the successors of each old one, if it is there.
#[derive(Drop)]
pub struct Layer {
    pub objects: Vec<Object>,
    pub successors: Vec<Option<Successors>>,
}

/// The complex with one crossing more: each object that is there has successors, one for each
/// smoothing and each labelling of the circles that this closes. Source: Bar-Natan 2007.
pub fn add_crossing<'a, F: PrimeField>(
    alloc: Global,
    front: &'a Front,
    next: &'a Front,
    complex: &'a TangleComplex,
) -> Result<TangleComplex, NoMemory>
    requires front { IsFront front.now }
    requires more { front.now.done < length front.now.diagram.crossings }
    requires next { IsNextFront front.now next.now }
    requires complex { IsComplexAt F.P front.now complex.now }
    requires scan { IsScanOf front.now.diagram (scan_at front.now complex.now) }
    ensures complex { IfOk result (λ made. IsComplexAt F.P next.now made) }
    ensures adding { IfOk result (λ made. IsAdding F.P 0 0 front.now.diagram
        (scan_at front.now complex.now) (scan_at next.now made)) }
{
    let crossing = front.crossing();
    let near = near_arcs(&front.opened, crossing);
    let site = Site {
        opened: &front.opened,
        near: &near,
        next: &next.opened,
        crossing,
    };
    let adding = Adding {
        front,
        site,
        complex,
    };
    add_at::<F>(alloc, &adding)
}

/// The same at a site.
fn add_at<F: PrimeField>(alloc: Global, adding: &Adding<'_>) -> Result<TangleComplex, NoMemory>
    requires ready { IsReady adding.now }
    requires complex { IsComplexAt F.P adding.now.front.now adding.now.complex.now }
    requires scan { IsScanOf (code_in adding.now) (scan_in adding.now) }
    ensures complex { IfOk result (λ made. IsComplexBehind F.P (done_in adding.now + 1)
        adding.now.site.next.now made) }
    ensures adding { IfOk result (λ made. IsAdding F.P 0 0 (code_in adding.now) (scan_in adding.now)
        (scan_behind (done_in adding.now + 1) adding.now.site.next.now made)) }
{
    let layer = layer_of(alloc, adding)?;
    let links = Links {
        alloc,
        adding,
        successors: &layer.successors,
        count: layer.objects.len(),
    };
    let columns = columns_of::<F>(&links)?;
    Ok(TangleComplex {
        objects: layer.objects,
        columns,
    })
}

/// The new objects, in the order of their origins, and the successors of each old one.
pub fn layer_of(alloc: Global, adding: &Adding<'_>) -> Result<Layer, NoMemory>
    requires ready { IsReady adding.now }
    ensures objects { IfOk result (λ layer.
        AreObjectsFrom adding.now (all_origins adding.now) layer.objects.items) }
    ensures successors { IfOk result (λ layer.
        SucceedTo adding.now (length (objects_in adding.now)) layer.successors.items) }
{
    let count = adding.complex.objects.len();
    let mut layer = Layer {
        objects: Vec::with_capacity(alloc, count)?,
        successors: Vec::with_capacity(alloc, count)?,
    };
    'places: for place in 0..count {
        push_place(&mut layer, adding, place)?;
    }
    Ok(layer)
}

/// Adds the successors of the object at a place, if it is there.
fn push_place(layer: &mut Layer, adding: &Adding<'_>, place: usize) -> Result<(), NoMemory>
    requires ready { IsReady adding.now }
    requires place { place < length (objects_in adding.now) }
    requires layer { IsLayerTo adding.now place layer.old }
    ensures { OnOk result (IsLayerTo adding.now (place + 1) layer.new) }
{
    if adding.complex.objects[place].is_alive {
        push_alive(layer, adding, place)
    } else {
        push_dead(layer, adding, place)
    }
}

/// Notes that the object at a place, which is not there, has no successors.
fn push_dead(layer: &mut Layer, adding: &Adding<'_>, place: usize) -> Result<(), NoMemory>
    requires dead { is_alive_at (objects_in adding.now) place ≡ false }
    requires layer { IsLayerTo adding.now place layer.old }
    ensures { OnOk result (IsLayerTo adding.now (place + 1) layer.new) }
{
    layer.successors.push(None)?;
    Ok(())
}

/// Adds the successors of the object at a place, which is there.
fn push_alive(layer: &mut Layer, adding: &Adding<'_>, place: usize) -> Result<(), NoMemory>
    requires ready { IsReady adding.now }
    requires place { place < length (objects_in adding.now) }
    requires alive { is_alive_at (objects_in adding.now) place ≡ true }
    requires layer { IsLayerTo adding.now place layer.old }
    ensures { OnOk result (IsLayerTo adding.now (place + 1) layer.new) }
{
    let old = adding.complex.objects[place];
    let zero = split_of(adding, place, 0);
    let one = split_of(adding, place, 1);
    let first = layer.objects.len();
    push_copies(&mut layer.objects, &old, &zero, 0)?;
    let second = layer.objects.len();
    push_copies(&mut layer.objects, &old, &one, 1)?;
    layer.successors.push(Some(Successors {
        zero,
        one,
        first,
        second,
    }))?;
    Ok(())
}

/// What a smoothing makes of the object at a place.
fn split_of(adding: &Adding<'_>, place: usize, smoothing: u8) -> Split
    requires ready { IsReady adding.now }
    requires place { place < length (objects_in adding.now) }
    ensures { IsSplitAt adding.now place smoothing result }
{
    split_at(
        &adding.site,
        &adding.complex.objects[place].pairing,
        smoothing,
    )
}

/// How many labels the circles have that a smoothing closes.
pub fn label_count(split: &Split) -> u64
    requires { length split.now.closed.items ≤ 2 }
    ensures { result ≡ 2 ^ length split.now.closed.items }
{
    1 << split.closed.len()
}

/// Adds an object with a smoothing, and all labels of the circles that this closes.
fn push_copies(
    objects: &mut Vec<Object>,
    old: &Object,
    split: &Split,
    smoothing: u8,
) -> Result<(), NoMemory>
    requires closed { length split.now.closed.items ≤ 2 }
    requires smoothing { smoothing < 2 }
    requires degree { old.now.degree < 100 }
    requires least { pos 0 ≤ℤ (old.now.shift +ℤ pos 100) }
    requires most { old.now.shift ≤ℤ pos 100 }
    ensures { OnOk result
        (objects.new.items ≡ objects.old.items ++ copies old.now split.now smoothing) }
{
    'labels: for label in 0..label_count(split) {
        objects.push(copy_with(old, split, smoothing, label))?;
    }
    Ok(())
}

/// An object with a smoothing, and labels of the circles that this closes.
fn copy_with(old: &Object, split: &Split, smoothing: u8, label: u64) -> Object
    requires closed { length split.now.closed.items ≤ 2 }
    requires smoothing { smoothing < 2 }
    requires degree { old.now.degree < 100 }
    requires least { pos 0 ≤ℤ (old.now.shift +ℤ pos 100) }
    requires most { old.now.shift ≤ℤ pos 100 }
    ensures { result ≡ copy old.now split.now smoothing label }
{
    Object {
        pairing: split.pairing,
        degree: old.degree + smoothing,
        shift: old.shift + label_degree(split.closed.len(), label),
        smoothing,
        is_alive: true,
    }
}

/// How many labels of some circles are v+, less how many are v-.
fn label_degree(count: usize, label: u64) -> i16
    requires { count ≤ 2 }
    ensures degree { result ≡ degree_of_labels count label }
    ensures least { pos 0 ≤ℤ (result +ℤ pos 2) }
    ensures most { result ≤ℤ pos 2 }
{
    count as i16 - 2 * i16::from(ones(count, label))
}
