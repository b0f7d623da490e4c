ghost use Rattle.host.specs.Ports.{PortOf};

/// Returns the port of a number: so far above the base, or `None` if there is no such port.
pub fn port_of(base: u16, number: u32) -> Option<u16>
    ensures { PortOf base number result }
{
    u16::try_from(u64::from(base) + u64::from(number)).ok()
}
