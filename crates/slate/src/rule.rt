// The two prefix rules: the byte that is hashed before the digests of a node's children.
ghost use Rattle.std.specs.Prelude.{◌≡◌, ◌≤◌};
ghost use Rattle.slate.specs.Rules.{rule_of};

// Document 01's tree, and the tree of RFC 6962 over the same values. Both hash 0x00 before a leaf.
#[derive(Clone, Copy, PartialEq, Eq, Debug)]
pub enum Rule {
    Slate,
    Rfc6962,
}

impl Rule {
    // The byte before a node of this height. Internal: it is from 1 to 255.
    pub fn node_tag(self, height: u32) -> u8
        requires { (1 ≤ height) × (height ≤ 255) }
        ensures { result ≡ rule_of self height }
    {
        match self {
            Rule::Slate => height as u8,
            Rule::Rfc6962 => 1,
        }
    }
}
