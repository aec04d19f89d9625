// What holds of the text of every network, and of every text.
ghost use Rattle.std.specs.Prelude.{◌≡◌, ◌⊎◌, ℕ, List, All, ◌≤◌, ◌+◌, length};
ghost use Rattle.switch_net.specs.Circuit.{Circuit};
ghost use Rattle.switch_net.specs.Validity.{IsNetwork};
ghost use Rattle.rx_text.specs.declared.place.Place.{Place};
ghost use Rattle.rx_text.specs.declared.place.Place.TheVariants.{Text};
ghost use Rattle.net_text.specs.NetworkText.{IsNamed, IsNetworkText, TextIsOfOneNetwork, network_text};
ghost use Rattle.net_text.specs.NetRefusals.{NetRefusal};
ghost use Rattle.net_text.specs.declared.net_fault.NetCode.{NetCode};

use switch_net::network::faultless_is_network;

/// One text is the text of one network at most.
pub fn text_is_of_one_network()
    ensures { TextIsOfOneNetwork }
{}

/// Every text is the text of a network, or it is refused with exactly one code at one place; never both.
pub fn texts_are_networks_or_refused()
    ensures either { (text : List ℕ)
        → ((circuit : Circuit) × IsNetworkText text circuit)
        ⊎ ((code : NetCode) × (place : Place) × NetRefusal text code place) }
    ensures exclusive { (text : List ℕ) (circuit : Circuit) (code : NetCode) (place : Place)
        → IsNetworkText text circuit → NetRefusal text code place → ⊥ }
    ensures one_refusal { (text : List ℕ) (code other : NetCode) (place elsewhere : Place)
        → NetRefusal text code place → NetRefusal text other elsewhere → (code ≡ other) × (place ≡ elsewhere) }
{
    faultless_is_network();
}

/// The text that is written of a network is that of this network, number by number, where pads bear names as their roles
/// ask and there are not too many nets.
pub fn written_networks_are_read_back()
    ensures { (circuit : Circuit) → IsNetwork circuit → All IsNamed circuit.pads → circuit.nets ≤ 16777216
        → IsNetworkText (network_text circuit) circuit × ((other : Circuit) → IsNetworkText (network_text circuit) other → other ≡ circuit) }
{}

/// A refusal stands in a line of its text, or in the one behind the last line feed.
pub fn refusals_stand_in_the_text()
    ensures { (text : List ℕ) (code : NetCode) (line column : ℕ) → NetRefusal text code (Text line column) → line ≤ length text + 1 }
{}
