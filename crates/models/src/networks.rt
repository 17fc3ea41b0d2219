//! Reflection networks: wires that stand one below the other, and crossings that swap neighbours.

ghost use Rattle.models.specs.Networks.{CrossesOnce, TurnsByCrossings, NetworksLawful};

// The theory of reflection networks: its contract names the theorems.
pub fn networks_stand()
    ensures once { CrossesOnce }
    ensures turns { TurnsByCrossings }
    ensures lawful { NetworksLawful }
{}
