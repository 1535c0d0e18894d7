//! What follows from the definitions, for their readers. The calls do nothing; their contracts are the laws.
ghost use Rattle.std.specs.Prelude.{◌≡◌, ◌≤◌, ◌++◌, ℕ, List, Option, Some, filter, length, nat_lt, slice_get, true};
ghost use Rattle.std.specs.List.{flat_map, AllByRecursion};
ghost use Rattle.device_template.specs.Template.{Template};
ghost use Rattle.device_machine.specs.declared.output.Output.{Output};
ghost use Rattle.device_machine.specs.State.{Machine};
ghost use Rattle.scenario_image.specs.declared.step.Step.{Step};
ghost use Rattle.scenario_image.specs.Play.{outputs_in, PutsOut};
ghost use Rattle.scenario_image.specs.Scenario.{is_in_range, one_row};
ghost use Rattle.live_link.specs.declared.packet.Packet.{Packet};
ghost use Rattle.live_link.specs.declared.session.LiveEnd.{LiveEnd};
ghost use Rattle.live_link.specs.declared.session.LiveSession.{LiveSession};
ghost use Rattle.live_link.specs.Came.{handed_by, heard_by, ticks_of};
ghost use Rattle.live_link.specs.Live.{packets_in, sent_by, IsLiveStep, IsSentOf};
ghost use Rattle.live_link.specs.Row.{AreRowOutputs};
ghost use Rattle.live_link.specs.Served.{AreMade, IsServed};
ghost use Rattle.live_link.specs.Wire.{Traffic};

/// A session of a device of a class, as `serve_class` returns it, is a row. The scenario that `Scenario::single` makes
/// of the class and the session's steps has one row, which has one list of outputs from its start; and the datagrams
/// among these are those that the session sent, in order: all of them at `Turns`, `ReceiveFault` and `Spent`, all
/// before the one that failed at `SendFault`, and a prefix at `Memory`.
///
/// `sent_by` is what steps output where they are played from any state, as `take_steps` does; and all steps of a
/// session are in the range of a scenario's.
pub fn sessions_are_rows()
    ensures sent { (class : Template) (turns : ℕ) (session : LiveSession) (before after : Option Traffic)
        (read_before read_after : Option (List ℕ)) → IsServed class turns session before after read_before read_after
        → (all : List (List Output)) → AreRowOutputs (one_row class session.steps.items) 0 all
        → IsSentOf session.end session.sent.items (flat_map packets_in all) }
    ensures outputs { (class : Template) (steps : List Step) → (all : List (List Output))
        × AreRowOutputs (one_row class steps) 0 all
        × ((other : List (List Output)) → AreRowOutputs (one_row class steps) 0 other → other ≡ all) }
    ensures played { (f : Machine) (steps : List Step) (all : List (Option (List Output)))
        → length all ≡ length steps
        → ((k : ℕ) (o : Option (List Output)) → slice_get all k ≡ Some o → PutsOut f steps k (outputs_in o))
        → flat_map (λ o. packets_in (outputs_in o)) all ≡ sent_by f steps }
    ensures in_range { (steps : List Step) → AllByRecursion IsLiveStep steps
        → AllByRecursion (λ step. is_in_range step ≡ true) steps }
{}

/// The steps of a session are what came: the datagrams that they receive are those that the wire handed out, in order,
/// and their ticks are the seconds that passed at the readings, where some did; but for the one step that was refused.
pub fn steps_are_what_came()
    ensures heard { (end : LiveEnd) (turns refusals : ℕ) (readings : List ℕ) (received : List (Option Packet))
        (steps refused : List Step) → AreMade end turns refusals readings received steps refused
        → (unheard : List Packet) × (handed_by received ≡ heard_by steps ++ unheard)
        × (length unheard ≤ length refused) }
    ensures ticked { (end : LiveEnd) (turns refusals : ℕ) (readings : List ℕ) (received : List (Option Packet))
        (steps refused : List Step) (h : AreMade end turns refusals readings received steps refused)
        → (unticked : List ℕ) × (filter (nat_lt 0) h.seconds ≡ ticks_of steps ++ unticked)
        × (length unticked ≤ length refused) }
{}
