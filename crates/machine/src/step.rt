//! Steps.

ghost use Rattle.std.specs.Prelude.{◌≡◌, IfErr};
ghost use Rattle.machine.specs.Act.{perform};
ghost use Rattle.machine.specs.Cores.{core_of};
ghost use Rattle.machine.specs.Outcomes.{outcome};
ghost use Rattle.machine.specs.Rules.{rules_of};
ghost use Rattle.machine.specs.Sequences.{IsLawful};
ghost use Rattle.machine.specs.Step.{command_act, state, step_act, stepped};
ghost use Rattle.machine.specs.Turns.{InTurn};

use crate::cause::Cause;
use crate::fault::Fault;
use crate::operation::Operation;
use crate::processor::Processor;
use crate::processor::calls::R15;
use crate::rules::Rules;
use crate::turn::Turn;
use host::host::Host;
use isa::fetched::Fetched;

impl Processor {
    /// Does the command that a word is; question 31 comes before.
    fn command<H: Host>(
        &mut self,
        rules: &Rules<'_>,
        word: Fetched,
        cells: &mut [u32],
        host: &mut H,
    ) -> Result<Turn, Cause>
        ensures value { let act = command_act word.word (core_of self.old) in
            let after = outcome result (core_of self.new) cells.new (H.meaning host.new) in
            perform (rules_of rules.now) act cells.old (H.meaning host.old) ≡ after }
        ensures kept { IfErr result (λ _. core_of self.new ≡ core_of self.old) }
        ensures cells { IfErr result (λ _. cells.new ≡ cells.old) }
        ensures host { IfErr result (λ _. H.meaning host.new ≡ H.meaning host.old) }
        ensures lender { H.roots host.new ≡ H.roots host.old }
    {
        match word.opcode() {
            Some(opcode) => self.execute(rules, word, Operation::of(opcode), cells, host),
            None => Err(Cause::Opcode),
        }
    }

    /// Fetches the word at r15 and does its command; question 30 comes before.
    fn attempt<H: Host>(
        &mut self,
        rules: &Rules<'_>,
        cells: &mut [u32],
        host: &mut H,
    ) -> Result<Turn, Cause>
        ensures value { let act = step_act (core_of self.old) cells.old in
            let after = outcome result (core_of self.new) cells.new (H.meaning host.new) in
            perform (rules_of rules.now) act cells.old (H.meaning host.old) ≡ after }
        ensures kept { IfErr result (λ _. core_of self.new ≡ core_of self.old) }
        ensures cells { IfErr result (λ _. cells.new ≡ cells.old) }
        ensures host { IfErr result (λ _. H.meaning host.new ≡ H.meaning host.old) }
        ensures lender { H.roots host.new ≡ H.roots host.old }
    {
        let address = self.register(R15);
        if address as usize >= cells.len() {
            return Err(Cause::Fetch);
        }
        let word = Fetched {
            word: cells[address as usize],
        };
        self.advance();
        match self.command(rules, word, cells, host) {
            Ok(turn) => Ok(turn),
            Err(cause) => {
                self.set_register(R15, address);
                Err(cause)
            }
        }
    }

    /// Takes one step over a memory and a host. A fault leaves everything as it was.
    pub fn step<H: Host>(
        &mut self,
        rules: &Rules<'_>,
        cells: &mut [u32],
        host: &mut H,
    ) -> Result<Turn, Fault>
        ensures value { let before = state (core_of self.old) cells.old (H.meaning host.old) in
            result ≡ (stepped (rules_of rules.now) before).turn }
        ensures after { let before = state (core_of self.old) cells.old (H.meaning host.old) in
            let after = state (core_of self.new) cells.new (H.meaning host.new) in
            after ≡ (stepped (rules_of rules.now) before).state }
        ensures turn { InTurn 0 (step_act (core_of self.old) cells.old) }
        ensures lawful { IsLawful (state (core_of self.old) cells.old (H.meaning host.old)) }
        ensures lender { H.roots host.new ≡ H.roots host.old }
    {
        self.holds_words(cells);
        let address = self.register(R15);
        match self.attempt(rules, cells, host) {
            Ok(turn) => Ok(turn),
            Err(cause) => Err(Fault { cause, address }),
        }
    }
}
