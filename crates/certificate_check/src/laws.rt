//! Laws of certificates: functions that do nothing, whose contracts are the laws.

ghost use Rattle.std.specs.Prelude.{◌≡◌, ℕ, List, map};
ghost use Rattle.certificate.specs.declared.Line.{Line as AnyLine};
ghost use Rattle.net_laws.specs.Lines.{IsValid};
ghost use Rattle.gadara_net.specs.Flows.{flow_net};
ghost use Rattle.gadara_net.specs.Bounds.{general_of};
ghost use Rattle.certificate_check.specs.Making.{HaveMinimalSets, AreFirstLines};

use gadara_net::Net;

/// Where each minimal set has a line, the first lines are a valid certificate, and so are the
/// general lines that say what they say.
pub fn first_lines_make_a_certificate(net: &Net)
    ensures first { let n = flow_net net.now in
        (sets : List ℕ) (lines : List AnyLine) → HaveMinimalSets n sets →
        AreFirstLines n sets lines → IsValid n lines }
    ensures general { let n = flow_net net.now in
        (sets : List ℕ) (lines : List AnyLine) → HaveMinimalSets n sets →
        AreFirstLines n sets lines → IsValid n (map (general_of n) lines) }
{
    net.keeps_flow();
    gadara_net::laws::minimal_sets_give_lines(net);
}
