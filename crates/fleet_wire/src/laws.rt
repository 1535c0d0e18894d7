//! What follows from the definitions, for their readers. The calls do nothing; their contracts are the laws.
ghost use Rattle.std.specs.Prelude.{◌≡◌, ◌<◌, ◌^◌, ℕ};
ghost use Rattle.fleet_wire.specs.declared.choice.Choice.TheVariants.{Never};
ghost use Rattle.fleet_wire.specs.declared.plan.Direction.{Direction};
ghost use Rattle.fleet_wire.specs.declared.plan.Fate.TheVariants.{Passes};
ghost use Rattle.fleet_wire.specs.declared.plan.Kind.{Kind};
ghost use Rattle.fleet_wire.specs.declared.plan.Plan.{Plan};
ghost use Rattle.fleet_wire.specs.Schedule.{fate_of, stream_of};

/// A plan that chooses nothing lets each datagram pass.
pub fn nothing_chosen_passes()
    ensures { (plan : Plan) → plan.lose_in ≡ Never → plan.lose_out ≡ Never → plan.twice ≡ Never
        → plan.swap ≡ Never → plan.late ≡ Never → (direction : Direction) (device number : ℕ)
        → fate_of plan direction device number ≡ Passes }
{}

/// Each kind of each device and direction has a stream of words of its own.
pub fn streams_differ()
    ensures { (d e : Direction) (k l : Kind) (device other : ℕ) → device < 2 ^ 59 → other < 2 ^ 59
        → stream_of d k device ≡ stream_of e l other → (device ≡ other) × (d ≡ e) × (k ≡ l) }
{}
