//! The report of a system that a sheet was opened as.

ghost use Rattle.std.specs.Prelude.{◌≡◌, ◌≤◌, ◌++◌, length, None, string_bytes, OnOk};
ghost use Rattle.laws.specs.First.{Never};
ghost use Rattle.sections.specs.Tapes.{Strange};
ghost use Rattle.opening.specs.Opening.{Judged, count_of, kind_of, values_of};
ghost use Rattle.reports.specs.Lines.{kind_line, ring_line, round_lines};
ghost use Rattle.reports.specs.Reports.{Adds, StarTold, TapeTold, Told};

use super::layering::layers_of;
use super::layers::ConvexLayers;
use super::lines::{write_length, write_line, write_pairs, write_rounds, write_star_refusal};
use arrayvec::ArrayVec;
use cc::{CcSystem, LIMIT};
use opening::Opened;
use sections::delaunay::star;
use sections::tapes::tape;
use sheet::Kind;
use std::alloc::AllocError;
use std::fmt::Write;
use systems::planar::Planar;
use systems::points::Points;

// Writes the kind and the count, the ring and the rounds.
fn write_layers(out: &mut String, kind: Kind, layers: &ConvexLayers) -> Result<(), AllocError>
    ensures written { OnOk result (string_bytes out.new ≡ string_bytes out.old ++ (kind_line kind (length layers.now.rounds.items) ++ ring_line layers.now.ring.items ++ round_lines layers.now.rounds.items)) }
{
    let count = layers.rounds.len();
    writeln!(out, "kind\t{kind}\t{count}")?;
    write_line(out, "ring", &layers.ring)?;
    write_rounds(out, &layers.rounds)
}

// Writes the star about mark 0, if there is one.
fn write_star(out: &mut String, points: &Points<'_>) -> Result<(), AllocError>
    ensures told { OnOk result (Adds (StarTold points.now.places.now) (string_bytes out.old) (string_bytes out.new)) }
{
    if points.count() == 0 {
        return Ok(());
    }
    // `pairs` is made full and cut afterwards, since `star` writes into a list that it is lent
    let mut pairs = ArrayVec::from([(0, 0); LIMIT]);
    match star(points, 0, &mut pairs) {
        Ok(len) => {
            pairs.truncate(len);
            write_pairs(out, &pairs)
        }
        Err(fault) => write_star_refusal(out, fault),
    }
}

// Writes the length of a tape around a ring of places.
fn write_tape<'a, P: Planar<'a>>(
    out: &mut String,
    points: &P,
    ring: &[usize],
) -> Result<(), AllocError>
    requires few { length ring.now ≤ 128 }
    requires marks { Never (length ring.now) (Strange (P.Planar.places points.now) ring.now) }
    ensures told { OnOk result
        (Adds (TapeTold (P.Planar.places points.now) ring.now)
        (string_bytes out.old) (string_bytes out.new)) }
{
    let Ok(total) = tape(points, ring) else {
        unreachable()
    };
    write_length(out, total)
}

// Writes all that a system's report says.
pub(crate) fn write_told(out: &mut String, system: &Opened<'_>) -> Result<(), AllocError>
    requires accepted { Judged (kind_of system.now) (count_of system.now) (values_of system.now) None }
    ensures told { OnOk result (Adds (Told (kind_of system.now) (count_of system.now) (values_of system.now)) (string_bytes out.old) (string_bytes out.new)) }
{
    let layers = layers_of(*system);
    write_layers(out, system.kind(), &layers)?;
    match system {
        Opened::Points(points) => {
            write_star(out, points)?;
            write_tape(out, points, &layers.ring)
        }
        Opened::FlatPoints(flat) => write_tape(out, flat, &layers.ring),
        Opened::Network(_) | Opened::Table(_) => Ok(()),
    }
}
