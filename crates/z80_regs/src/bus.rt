ghost use Rattle.std.specs.Prelude.{◌≡◌, ◌≢◌, ◌<◌, ◌^◌, ℕ, ◌↔◌};

/// What the processor reads and writes: memory by addresses, devices by ports.
pub trait Bus {
    /// The byte that each address reads.
    ghost byte: { Self → ℕ → ℕ };

    /// The byte that each port reads.
    ghost port_byte: { Self → ℕ → ℕ };

    /// Whether an address keeps what is written there.
    ghost writable: { Self → ℕ → Type 0 };

    /// What a write of a byte at an address leaves.
    ghost wrote: { Self → ℕ → ℕ → Self → Type 0 };

    /// What reading a port leaves.
    ghost took: { Self → ℕ → Self → Type 0 };

    fn read(&self, address: u16) -> u8
        ensures { result ≡ byte self.now address };

    fn write(&mut self, address: u16, value: u8)
        ensures { wrote self.old address value self.new };

    fn input(&mut self, port: u8) -> u8
        ensures value { result ≡ port_byte self.old port }
        ensures after { took self.old port self.new };

    fn output(&mut self, port: u8, value: u8)
        ensures { self.new ≡ self.old };

    /// A writable address reads back what was written there.
    ghost reads_back: { (old new : Self) (address value : ℕ) → address < 2 ^ 16 → value < 2 ^ 8 →
        wrote old address value new → writable old address → byte new address ≡ value };

    /// A write keeps the byte of every other address.
    ghost write_keeps_bytes: { (old new : Self) (address value other : ℕ) → address < 2 ^ 16 → value < 2 ^ 8 →
        wrote old address value new → other ≢ address → byte new other ≡ byte old other };

    /// A write keeps what every port reads.
    ghost write_keeps_ports: { (old new : Self) (address value port : ℕ) → address < 2 ^ 16 → value < 2 ^ 8 →
        wrote old address value new → port_byte new port ≡ port_byte old port };

    /// A write keeps which addresses are writable.
    ghost write_keeps_writable: { (old new : Self) (address value other : ℕ) → address < 2 ^ 16 → value < 2 ^ 8 →
        wrote old address value new → writable new other ↔ writable old other };

    /// An input keeps memory.
    ghost input_keeps_bytes: { (old new : Self) (port address : ℕ) → port < 2 ^ 8 →
        took old port new → byte new address ≡ byte old address };

    /// An input keeps which addresses are writable.
    ghost input_keeps_writable: { (old new : Self) (port address : ℕ) → port < 2 ^ 8 →
        took old port new → writable new address ↔ writable old address };
}
