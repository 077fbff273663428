// The line of an attribute.
use popcount::Attribute;
use printing::{flag, named, number, refused, text};

fn attribute(out: &impl Print, a: Attribute) {
    text(out, b"E ");
    flag(out, a.e);
    number(out, b" mtu ", a.mtu as u64);
    number(out, b" flags ", a.flags as u64);
    number(out, b" options ", a.options as u64);
    let v = a.values;
    number(out, b" transit ", v.transit as u64);
    number(out, b" stub ", v.stub as u64);
    number(out, b" minimum ", v.minimum_speed as u64);
    number(out, b" maximum ", v.maximum_speed as u64);
    number(out, b" domain ", v.domain as u64);
    number(out, b" node ", v.node as u64);
    number(out, b" diameter ", v.diameter as u64);
    number(out, b" zone ", v.time_zone as u64);
}

// The attribute at a place, and the place past it.
pub(crate) fn read(out: &impl Print, o: &[u8], at: usize) {
    match popcount::read_attribute(o, at) {
        Ok(read) => {
            attribute(out, read.attribute);
            named(out, b" next ", read.next as u64);
        }
        Err(r) => {
            refused(out, r, b"\n");
        }
    }
}
