//! Paths: the names of nodes and of the groups above them.
ghost use Rattle.std.specs.Prelude.{◌≡◌, ◌≤◌};
ghost use Rattle.rl_place.specs.Paths.{root_path, prefix};

/// One to three numbers, each at most 999, that name a node; fewer numbers name a group of nodes, and none the root.
///
/// `len` says how many numbers there are, and the parts past them are 0.
#[derive(Clone, Copy, Debug, PartialEq, Eq, Hash)]
pub struct Path {
    pub len: u32,
    pub parts: [u32; 3],
}

impl Path {
    /// The path of the root, which has no numbers.
    pub fn root() -> Path
        ensures { result ≡ root_path }
    {
        Path {
            len: 0,
            parts: [0, 0, 0],
        }
    }

    /// The first `len` numbers: the group of nodes, or the node, that these name.
    pub fn prefix(&self, len: u32) -> Path
        requires { len ≤ 3 }
        ensures { result ≡ prefix self.now len }
    {
        let [first, second, third] = self.parts;
        let parts = match len {
            0 => [0, 0, 0],
            1 => [first, 0, 0],
            2 => [first, second, 0],
            _ => [first, second, third],
        };
        Path { len, parts }
    }
}
