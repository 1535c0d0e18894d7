ghost use Rattle.std.specs.Prelude.{◌≡◌, IfErr, IfOk, OnOk, map, true};
ghost use Rattle.std.specs.List.{fold};
ghost use Rattle.std.specs.String.{string_bytes};
ghost use Rattle.device_reasons.specs.Text.{IsReasonLine};
ghost use Rattle.command_demo.specs.Demo.{demo_class, demo_outputs, demo_start, row_of, takes_instances, takes_values};
ghost use Rattle.command_demo.specs.Demo.{value_of, with_place, with_row};

use command_files::Fault;
use device_machine::{Device, Event, Outputs, StepFault, Template, TemplateFault};
use device_reasons::reason_line;
use lwm2m_values::{Text, Value};
use object_defs::Path;
use octets::Bytes;
use std::alloc::{AllocError, Global};

/// The Short Server ID of the one account of the demonstration device.
pub const SERVER: u16 = 1;

/// A value as it stands in the table.
#[derive(Clone, Copy)]
enum Held {
    Whole(i64),
    Flag(bool),
    Text(&'static str),
}

/// The instances of the demonstration device: object, then instance.
const INSTANCES: [(u16, u16); 3] = [(1, 0), (3, 0), (5, 0)];

/// The values of the demonstration device.
const VALUES: [(Path, Held); 11] = [
    (Path::Resource(1, 0, 0), Held::Whole(1)),
    (Path::Resource(1, 0, 1), Held::Whole(300)),
    (Path::Resource(1, 0, 6), Held::Flag(false)),
    (Path::Resource(1, 0, 7), Held::Text("U")),
    (Path::Resource(3, 0, 0), Held::Text("Bench")),
    (Path::Part(3, 0, 6, 0), Held::Whole(1)),
    (Path::Part(3, 0, 6, 1), Held::Whole(5)),
    (Path::Resource(3, 0, 9), Held::Whole(100)),
    (Path::Part(3, 0, 11, 0), Held::Whole(0)),
    (Path::Resource(3, 0, 16), Held::Text("U")),
    (Path::Resource(5, 0, 9), Held::Whole(2)),
];

fn value_of(alloc: Global, held: Held) -> Result<Value, AllocError>
    ensures { IfOk result (λ value. value ≡ value_of held) }
{
    Ok(match held {
        Held::Whole(number) => Value::Whole(number),
        Held::Flag(flag) => Value::Flag(flag),
        Held::Text(text) => Value::Text(Text::from_str(alloc, text)?),
    })
}

fn add_instances(template: &mut Template, places: &[(u16, u16)]) -> Result<(), TemplateFault>
    requires { takes_instances template.old places.now ≡ true }
    ensures added { OnOk result (template.new ≡ fold with_place template.old places.now) }
    ensures refused { IfErr result (λ f. f ≡ TemplateFault.Memory) }
{
    for (object, instance) in places {
        template.add_instance(*object, *instance)?;
    }
    Ok(())
}

fn add_values(alloc: Global, template: &mut Template, rows: &[(Path, Held)]) -> Result<(), Fault>
    requires { takes_values template.old (map row_of rows.now) ≡ true }
    ensures added { OnOk result (template.new ≡ fold with_row template.old (map row_of rows.now)) }
    ensures refused { IfErr result (λ f. f ≡ Fault.Memory) }
{
    for (path, held) in rows {
        template.add_value(*path, value_of(alloc, *held)?)?;
    }
    Ok(())
}

/// The class of the demonstration device, or out of memory: it refuses none of its parts.
pub fn template(alloc: Global) -> Result<Template, Fault>
    ensures class { IfOk result (λ t. t ≡ demo_class) }
    ensures refused { IfErr result (λ f. f ≡ Fault.Memory) }
{
    let mut template = Template::new(alloc)?;
    template.add_account(SERVER)?;
    add_instances(&mut template, &INSTANCES)?;
    add_values(alloc, &mut template, &VALUES)?;
    Ok(template)
}

/// What the demonstration device, just started, outputs if its server sends these bytes, or out of memory.
pub fn answer(alloc: Global, bytes: Bytes) -> Result<Outputs, Fault>
    ensures outputs { IfOk result (λ outputs. outputs ≡ demo_outputs bytes) }
    ensures refused { IfErr result (λ f. f ≡ Fault.Memory) }
{
    let mut device = Device::start(&template(alloc)?)?;
    let event = Event::Recv {
        server: SERVER,
        bytes,
    };
    match device.step(&event) {
        Ok(outputs) => Ok(outputs),
        Err(StepFault::Memory) => Err(Fault::Memory),
        Err(StepFault::Spent) => unreachable!(),
    }
}

/// The line that says why the demonstration device, just started, handles these bytes of its server as it does, or out
/// of memory.
pub fn reason(alloc: Global, bytes: &[u8]) -> Result<String, Fault>
    ensures reason { IfOk result (λ line. IsReasonLine demo_start 1 bytes.now (string_bytes line)) }
    ensures refused { IfErr result (λ f. f ≡ Fault.Memory) }
{
    let device = Device::start(&template(alloc)?)?;
    let line = reason_line(alloc, &device, SERVER, bytes)?;
    Ok(line)
}
