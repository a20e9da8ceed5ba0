//! The laws of commands, for all permits, processors, memories and hosts.

ghost use Rattle.std.specs.Prelude.{◌≡◌, true};
ghost use Rattle.machine.specs.Returns.{PopsUndo, ReturnsComeBack};
ghost use Rattle.machine.specs.Rules.{Rules};
ghost use Rattle.machine.specs.Sequences.{ActLikeSequences};
ghost use Rattle.machine.specs.Step.{State};

/// The laws of the calling convention and of the stack.
pub fn commands_stand() -> bool
    ensures value { result ≡ true }
    ensures sequences { (s : Rules) → (x : State) → ActLikeSequences s x }
    ensures returns { (s : Rules) → (x : State) → ReturnsComeBack s x }
    ensures undone { (s : Rules) → (x : State) → PopsUndo s x }
{
    true
}
