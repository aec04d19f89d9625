// The numbers of the nets of an automaton's programmable logic array.

ghost use Rattle.std.specs.Prelude.{◌≡◌, ◌<◌, ◌^◌};
ghost use Rattle.rx_lang.specs.Tables.{IsSpecification};
ghost use Rattle.position_nfa.specs.Automaton.{IsAutomaton};
ghost use Rattle.position_nfa.specs.Registers.{AreFew, array_counts, line_net, complement_net, state_net, start_net, reset_net, ground_net, master_net, sum_net, inverse_net, stored_net, shared_net, output_net, phi1_net, phi2_net, start_master_net, start_inverse_net, part_nets, term_net};

use crate::nfa::Nfa;
use rx_lang::Spec;

/// How many lines, positions and outputs there are. The nets are numbered by them.
#[derive(Clone, Copy, Debug, PartialEq, Eq)]
pub struct ArrayCounts {
    pub lines: u32,
    pub positions: u32,
    pub outputs: u32,
}

impl ArrayCounts {
    /// The numbers of an automaton and its specification.
    pub fn of(nfa: &Nfa, spec: &Spec) -> ArrayCounts
        ensures counts { result ≡ array_counts nfa.now spec.now }
        ensures few { AreFew result }
        ensures automaton { IsAutomaton nfa.now }
        ensures specification { IsSpecification spec.now }
    {
        ArrayCounts {
            lines: spec.lines().len() as u32,
            positions: nfa.symbols().len() as u32,
            outputs: spec.outputs().len() as u32,
        }
    }

    /// The line with this number.
    pub fn line_net(self, line: u32) -> u32
        requires { line < 2 ^ 16 }
        ensures { result ≡ line_net self line }
    {
        1 + line
    }

    /// The complement of the line.
    pub fn complement_net(self, line: u32) -> u32
        requires few { AreFew self }
        requires line { line < 2 ^ 16 }
        ensures { result ≡ complement_net self line }
    {
        1 + self.lines + line
    }

    /// The complement of the position's state.
    pub fn state_net(self, position: u32) -> u32
        requires few { AreFew self }
        requires position { position < 2 ^ 16 }
        ensures { result ≡ state_net self position }
    {
        1 + 2 * self.lines + position
    }

    /// The complement of the start.
    pub fn start_net(self) -> u32
        requires { AreFew self }
        ensures { result ≡ start_net self }
    {
        1 + 2 * self.lines + self.positions
    }

    /// The reset.
    pub fn reset_net(self) -> u32
        requires { AreFew self }
        ensures { result ≡ reset_net self }
    {
        2 + 2 * self.lines + self.positions
    }

    /// The ground.
    pub fn ground_net(self) -> u32
        requires { AreFew self }
        ensures { result ≡ ground_net self }
    {
        3 + 2 * self.lines + self.positions
    }

    /// What the position's register stores while PHI1 is high.
    pub fn master_net(self, position: u32) -> u32
        requires few { AreFew self }
        requires position { position < 2 ^ 16 }
        ensures { result ≡ master_net self position }
    {
        4 + 2 * self.lines + self.positions + 4 * position
    }

    /// The position's sum.
    pub fn sum_net(self, position: u32) -> u32
        requires few { AreFew self }
        requires position { position < 2 ^ 16 }
        ensures { result ≡ sum_net self position }
    {
        5 + 2 * self.lines + self.positions + 4 * position
    }

    /// The inverse of what the position's register stores first.
    pub fn inverse_net(self, position: u32) -> u32
        requires few { AreFew self }
        requires position { position < 2 ^ 16 }
        ensures { result ≡ inverse_net self position }
    {
        6 + 2 * self.lines + self.positions + 4 * position
    }

    /// What the position's register stores while PHI2 is high.
    pub fn stored_net(self, position: u32) -> u32
        requires few { AreFew self }
        requires position { position < 2 ^ 16 }
        ensures { result ≡ stored_net self position }
    {
        7 + 2 * self.lines + self.positions + 4 * position
    }

    /// The output's complement.
    pub fn shared_net(self, output: u32) -> u32
        requires few { AreFew self }
        requires output { output < 2 ^ 16 }
        ensures { result ≡ shared_net self output }
    {
        4 + 2 * self.lines + 5 * self.positions + 2 * output
    }

    /// The output.
    pub fn output_net(self, output: u32) -> u32
        requires few { AreFew self }
        requires output { output < 2 ^ 16 }
        ensures { result ≡ output_net self output }
    {
        5 + 2 * self.lines + 5 * self.positions + 2 * output
    }

    /// PHI1.
    pub fn phi1_net(self) -> u32
        requires { AreFew self }
        ensures { result ≡ phi1_net self }
    {
        4 + 2 * self.lines + 5 * self.positions + 2 * self.outputs
    }

    /// PHI2.
    pub fn phi2_net(self) -> u32
        requires { AreFew self }
        ensures { result ≡ phi2_net self }
    {
        5 + 2 * self.lines + 5 * self.positions + 2 * self.outputs
    }

    /// What the start's register stores while PHI1 is high.
    pub fn start_master_net(self) -> u32
        requires { AreFew self }
        ensures { result ≡ start_master_net self }
    {
        6 + 2 * self.lines + 5 * self.positions + 2 * self.outputs
    }

    /// The inverse of what the start's register stores first.
    pub fn start_inverse_net(self) -> u32
        requires { AreFew self }
        ensures { result ≡ start_inverse_net self }
    {
        7 + 2 * self.lines + 5 * self.positions + 2 * self.outputs
    }

    /// How many nets the part below the planes has.
    pub fn part_nets(self) -> u32
        requires { AreFew self }
        ensures { result ≡ part_nets self }
    {
        8 + 2 * self.lines + 5 * self.positions + 2 * self.outputs
    }

    /// The term with this number.
    pub fn term_net(self, term: u32) -> u32
        requires few { AreFew self }
        requires term { term < 2 ^ 31 }
        ensures { result ≡ term_net self term }
    {
        self.part_nets() + term
    }
}
