// Laws of inputs and outputs. These functions run nothing: a caller has the law from the contract.

ghost use Rattle.std.specs.Prelude.{◌≡◌, ℕ, Bool, List};
ghost use Rattle.switch_net.specs.Circuit.{Circuit};
ghost use Rattle.rxc_program.specs.Behaviour.{InputsAreJudged};
ghost use Rattle.rxc_program.specs.Commands.{InputsAreDecided, behaviour};
ghost use Rattle.rxc_program.specs.Simulating.{Drives, IsSimulated};
ghost use Rattle.rxc_program.specs.Telling.{FilesShowTheirLanguages, NetworksShowTheirLanguages};
ghost use Rattle.rxc_program.specs.declared.words.Command.{Command};

use layout_network::{layouts_have_one_reading, layouts_stand_for_networks};
use net_text::{text_is_of_one_network, texts_are_networks_or_refused};
use rx_syntax::laws::texts_are_accepted_or_refused_at_a_place;
use switch_net::{same_networks_agree, same_networks_run_alike};
use switch_sim::{texts_are_traces_or_refused, traces_have_an_output, traces_have_one_output};

/// No input is both accepted by a command and refused by it, and none is refused for two reasons. Where the command reads no layout in
/// it, it is one of the two. (That each CIF text draws something or is refused is not said here.)
pub fn inputs_are_judged()
    ensures judged { (command : Command) → InputsAreJudged (behaviour command) }
    ensures decided { (command : Command) → InputsAreDecided command }
{
    texts_are_accepted_or_refused_at_a_place();
    texts_are_traces_or_refused();
    texts_are_networks_or_refused();
    text_is_of_one_network();
    layouts_have_one_reading();
    layouts_stand_for_networks();
    same_networks_agree();
}

/// An accepted input of `sim` stands for an output.
pub fn sim_has_an_output()
    ensures { (text : List ℕ) (vectors : List (List Bool)) (circuit : Circuit) → Drives text vectors circuit → (lines : List ℕ) × IsSimulated text lines }
{
    texts_are_networks_or_refused();
    text_is_of_one_network();
    layouts_have_one_reading();
    layouts_stand_for_networks();
    same_networks_agree();
    traces_have_an_output();
}

/// And for no other, though a layout's network is known only up to the numbers of its nets.
pub fn sim_has_one_output()
    ensures { (text some others : List ℕ) → IsSimulated text some → IsSimulated text others → some ≡ others }
{
    texts_are_traces_or_refused();
    texts_are_networks_or_refused();
    text_is_of_one_network();
    layouts_have_one_reading();
    layouts_stand_for_networks();
    same_networks_agree();
    same_networks_run_alike();
    traces_have_one_output();
}

/// The output of `sim` on a compiled network tells the languages of its specification: in the line after t clocks the bit of
/// an output is `1` exactly where the first t vectors lie in its language, else `0`, and never `x`. So it does on a file that
/// `net`, `pla` or `tree` wrote and that draws no more boxes than are read, behind a trace with one bit for each line.
pub fn networks_show_their_languages()
    ensures networks { NetworksShowTheirLanguages }
    ensures files { FilesShowTheirLanguages }
{
    texts_are_traces_or_refused();
    texts_are_networks_or_refused();
    text_is_of_one_network();
    layouts_have_one_reading();
    layouts_stand_for_networks();
    same_networks_agree();
    same_networks_run_alike();
}
