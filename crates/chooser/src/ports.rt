// Sets of ports.
ghost use Rattle.std.specs.Prelude.{◌≡◌, length};

/// A set of the ports of a node: 0 (north), 1 (east), 2 (south) and 3 (west).
///
/// ```
/// let sides = PortSet::empty().with(1).with(3);
/// ```
#[derive(Clone, Copy, PartialEq, Eq, Debug)]
pub struct PortSet {
    on: [bool; 4],
    ghost four: { length on ≡ 4 },
}

impl From<[bool; 4]> for PortSet {
    ghost use Rattle.std.specs.Prelude.{false, slice_index_or};
    ghost use Rattle.chooser.specs.PortSets.{ports_where};

    ghost from_gives = { λ ports set. set ≡ ports_where (λ p. slice_index_or ports p false) };

    /// The set of the ports that are marked `true`, port by port.
    ///
    /// ```
    /// assert_eq!(rt; sides, PortSet::from([false, true, false, true]));
    /// ```
    fn from(ports: [bool; 4]) -> PortSet {
        PortSet { on: ports }
    }
}

impl PortSet {
    ghost use Rattle.std.specs.Prelude.{false, not, ◌&&◌, ◌||◌, ◌==◌, if◌then◌else◌};
    ghost use Rattle.chooser.specs.PortSets.{has, ports_where, vacant, how_many, bits_of};

    /// The set without any port.
    ///
    /// ```
    /// assert_eq!(rt; sides.without(3), PortSet::empty().with(1));
    /// ```
    pub fn empty() -> PortSet
        ensures { result ≡ ports_where (λ _. false) }
    {
        PortSet { on: [false; 4] }
    }

    /// The set with `port` added; past port 3 nothing is added.
    ///
    /// ```
    /// let sides = PortSet::empty().with(1).with(3);
    /// ```
    pub fn with(self, port: u8) -> PortSet
        ensures { result ≡ ports_where (λ p. has self p || p == port) }
    {
        self.marked(port, true)
    }

    /// The set with `port` taken out.
    ///
    /// ```
    /// assert_eq!(rt; sides.without(3), PortSet::empty().with(1));
    /// ```
    pub fn without(self, port: u8) -> PortSet
        ensures { result ≡ ports_where (λ p. has self p && not (p == port)) }
    {
        self.marked(port, false)
    }

    // The set with `port` in it or not; past port 3 nothing is marked.
    fn marked(self, port: u8, on: bool) -> PortSet
        ensures { result ≡ ports_where (λ p. if p == port then on else has self p) }
    {
        let mut marks = self.on;
        if port < 4 {
            marks[port as usize] = on;
        }
        PortSet { on: marks }
    }

    /// Whether `port` is in the set; past port 3 none is.
    ///
    /// ```
    /// assert!(rt; sides.contains(3) && !sides.contains(4));
    /// ```
    pub fn contains(self, port: u8) -> bool
        ensures { result ≡ has self port }
    {
        self.on.get(port as usize).copied().unwrap_or(false)
    }

    /// Whether no port is in the set.
    ///
    /// ```
    /// assert!(rt; !sides.is_empty() && sides.len() == 2 && sides.bits() == 10);
    /// ```
    pub fn is_empty(self) -> bool
        ensures { result ≡ vacant self }
    {
        !self.on.iter().any(|on| *on)
    }

    /// How many ports are in the set.
    ///
    /// ```
    /// assert!(rt; !sides.is_empty() && sides.len() == 2 && sides.bits() == 10);
    /// ```
    #[tactic(auto, using(crate::proofs::PortSets::how_many_counted))]
    pub fn len(self) -> u8
        ensures { result ≡ how_many self }
    {
        self.on.iter().filter(|on| **on).count() as u8
    }

    /// The set as a byte: bit p for port p.
    ///
    /// ```
    /// assert!(rt; !sides.is_empty() && sides.len() == 2 && sides.bits() == 10);
    /// ```
    pub fn bits(self) -> u8
        ensures { result ≡ bits_of self }
    {
        // The weight of each port is plainer to read here than in a fold.
        let [north, east, south, west] = self.on;
        north as u8 + 2 * east as u8 + 4 * south as u8 + 8 * west as u8
    }
}
