//! Conversions at every component and every field, beside the formulas in plain integers.

ghost use Rattle.rfb_pixel.specs.Channel.{IsField};

use super::*;

const ONE_BIT: Channel = Channel { width: 1, shift: 0 };

#[test]
fn a_field_of_one_bit_parts_the_components_in_the_middle(rt: HostRuntime) {
    for (component, field) in [(0, 0), (32_767, 0), (32_768, 1), (65_535, 1)] {
        assert_eq!(rt;
            ONE_BIT.place(component),
            field,
            "component {component} in one bit"
        );
    }
    assert_eq!(rt; ONE_BIT.component(0), 0);
    assert_eq!(rt; ONE_BIT.component(1), 65_535);
}

// Whether a quotient is that of a sum by a divisor, rounded down.
fn is_quotient(quotient: u32, sum: u64, divisor: u32) -> bool {
    let product = u64::from(quotient) * u64::from(divisor);
    product <= sum && sum - product < u64::from(divisor)
}

// Whether each component gets the field that the formula gives it.
fn fields_are_nearest(channel: Channel) -> bool
    requires { IsField 16 channel }
{
    for component in 0..=u16::MAX {
        let sum = u64::from(component) * u64::from(channel.max()) + 32_767;
        let field = channel.place(component) >> channel.shift;
        if !is_quotient(field, sum, 65_535) {
            return false;
        }
    }
    true
}

// Whether each field shows the component that the formula gives it, and is that component's field.
fn components_are_nearest(channel: Channel) -> bool
    requires { IsField 16 channel }
{
    let max = channel.max();
    for field in 0..=max {
        let sum = u64::from(field) * 65_535 + u64::from((max - 1) / 2);
        let component = channel.component(field << channel.shift);
        if !is_quotient(u32::from(component), sum, max) {
            return false;
        }
        if channel.place(component) != field << channel.shift {
            return false;
        }
    }
    true
}

#[test]
fn every_component_and_every_field_is_rounded_to_the_nearest(rt: HostRuntime) {
    for width in 1..=16 {
        let channel = Channel { width, shift: 0 };
        let nearest = fields_are_nearest(channel);
        assert!(rt; nearest, "components in {width} bits");
        let nearest = components_are_nearest(channel);
        assert!(rt; nearest, "fields of {width} bits");
    }
}
