//! The type of an opened sheet.

use systems::flat_points::FlatPoints;
use systems::networks::ReflectionNetwork;
use systems::points::Points;
use systems::tables::TurnTable;

/// The system that a sheet was opened as, by the kind of the sheet.
#[derive(Clone, Copy)]
pub enum Opened<'a> {
    Points(Points<'a>),
    FlatPoints(FlatPoints<'a>),
    Network(ReflectionNetwork<'a>),
    Table(TurnTable<'a>),
}
