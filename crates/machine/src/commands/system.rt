//! System calls.

ghost use Rattle.std.specs.Prelude.{◌≡◌, IfErr};
ghost use Rattle.machine.specs.Commands.{call_system, exit, get_character, get_number, get_real, put_character, put_number, put_real};
ghost use Rattle.machine.specs.Cores.{core_of};
ghost use Rattle.machine.specs.Outcomes.{Computes, Talks};

use crate::cause::Cause;
use crate::pair::Pair;
use crate::processor::Processor;
use crate::rules::Rules;
use crate::turn::Turn;
use host::host::Host;
use host::item::{Item, Kind};
use integers::pair::split;
use isa::fetched::Fetched;

impl Processor {
    /// EXIT: ends the program with the code in the first register.
    fn exit(&self, rules: &Rules<'_>, word: Fetched) -> Result<Turn, Cause>
        ensures { Computes rules.now exit word self.now result self.now }
    {
        rules.read(word.first())?;
        Ok(Turn::Exited(self.register(word.first())))
    }

    /// SCANINT: takes a number into the first register.
    fn get_number<H: Host>(
        &mut self,
        rules: &Rules<'_>,
        word: Fetched,
        host: &mut H,
    ) -> Result<Turn, Cause>
        ensures value { Talks rules.now get_number word self.old (H.meaning host.old) result self.new (H.meaning host.new) }
        ensures kept { IfErr result (λ _. core_of self.new ≡ core_of self.old) }
        ensures host { IfErr result (λ _. H.meaning host.new ≡ H.meaning host.old) }
        ensures lender { H.roots host.new ≡ H.roots host.old }
    {
        rules.write(word.first())?;
        let Item::Number(number) = host.get(Kind::Number)? else {
            unreachable!()
        };
        self.set_register(word.first(), number);
        Ok(Turn::Next)
    }

    /// SCANDOUBLE: takes a real into a pair.
    fn get_real<H: Host>(
        &mut self,
        rules: &Rules<'_>,
        word: Fetched,
        host: &mut H,
    ) -> Result<Turn, Cause>
        ensures value { Talks rules.now get_real word self.old (H.meaning host.old) result self.new (H.meaning host.new) }
        ensures kept { IfErr result (λ _. core_of self.new ≡ core_of self.old) }
        ensures host { IfErr result (λ _. H.meaning host.new ≡ H.meaning host.old) }
        ensures lender { H.roots host.new ≡ H.roots host.old }
    {
        let pair = Pair::at(word.first())?;
        rules.write_pair(pair)?;
        let Item::Real(real) = host.get(Kind::Real)? else {
            unreachable!()
        };
        self.set_pair(pair, split(real));
        Ok(Turn::Next)
    }

    /// PRINTINT: writes the number in the first register.
    fn put_number<H: Host>(
        &self,
        rules: &Rules<'_>,
        word: Fetched,
        host: &mut H,
    ) -> Result<Turn, Cause>
        ensures value { Talks rules.now put_number word self.now (H.meaning host.old) result self.now (H.meaning host.new) }
        ensures host { IfErr result (λ _. H.meaning host.new ≡ H.meaning host.old) }
        ensures lender { H.roots host.new ≡ H.roots host.old }
    {
        rules.read(word.first())?;
        host.write(Item::Number(self.register(word.first())))?;
        Ok(Turn::Next)
    }

    /// PRINTDOUBLE: writes the real in a pair.
    fn put_real<H: Host>(
        &self,
        rules: &Rules<'_>,
        word: Fetched,
        host: &mut H,
    ) -> Result<Turn, Cause>
        ensures value { Talks rules.now put_real word self.now (H.meaning host.old) result self.now (H.meaning host.new) }
        ensures host { IfErr result (λ _. H.meaning host.new ≡ H.meaning host.old) }
        ensures lender { H.roots host.new ≡ H.roots host.old }
    {
        let pair = Pair::at(word.first())?;
        rules.read_pair(pair)?;
        host.write(Item::Real(self.pair(pair)))?;
        Ok(Turn::Next)
    }

    /// GETCHAR: takes a character into the first register.
    fn get_character<H: Host>(
        &mut self,
        rules: &Rules<'_>,
        word: Fetched,
        host: &mut H,
    ) -> Result<Turn, Cause>
        ensures value { Talks rules.now get_character word self.old (H.meaning host.old) result self.new (H.meaning host.new) }
        ensures kept { IfErr result (λ _. core_of self.new ≡ core_of self.old) }
        ensures host { IfErr result (λ _. H.meaning host.new ≡ H.meaning host.old) }
        ensures lender { H.roots host.new ≡ H.roots host.old }
    {
        rules.write(word.first())?;
        let Item::Character(character) = host.get(Kind::Character)? else {
            unreachable!()
        };
        self.set_register(word.first(), u32::from(character));
        Ok(Turn::Next)
    }

    /// PUTCHAR: writes the character in the first register.
    fn put_character<H: Host>(
        &self,
        rules: &Rules<'_>,
        word: Fetched,
        host: &mut H,
    ) -> Result<Turn, Cause>
        ensures value { Talks rules.now put_character word self.now (H.meaning host.old) result self.now (H.meaning host.new) }
        ensures host { IfErr result (λ _. H.meaning host.new ≡ H.meaning host.old) }
        ensures lender { H.roots host.new ≡ H.roots host.old }
    {
        rules.read(word.first())?;
        let character = u8::try_from(self.register(word.first())).map_err(|_| Cause::Character)?;
        host.write(Item::Character(character))?;
        Ok(Turn::Next)
    }

    /// Calls the system by the immediate.
    pub(crate) fn call_system<H: Host>(
        &mut self,
        rules: &Rules<'_>,
        word: Fetched,
        host: &mut H,
    ) -> Result<Turn, Cause>
        ensures value { Talks rules.now call_system word self.old (H.meaning host.old) result self.new (H.meaning host.new) }
        ensures kept { IfErr result (λ _. core_of self.new ≡ core_of self.old) }
        ensures host { IfErr result (λ _. H.meaning host.new ≡ H.meaning host.old) }
        ensures lender { H.roots host.new ≡ H.roots host.old }
    {
        match word.immediate() {
            0 => self.exit(rules, word),
            100 => self.get_number(rules, word, host),
            101 => self.get_real(rules, word, host),
            102 => self.put_number(rules, word, host),
            103 => self.put_real(rules, word, host),
            104 => self.get_character(rules, word, host),
            105 => self.put_character(rules, word, host),
            _ => Err(Cause::SystemCall),
        }
    }
}
