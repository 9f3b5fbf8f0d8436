// Operations of a large service, found by their routes again and again.
use crate::failed::Failed;
use matchit::Router;
use smithy_router::Routes;
use smithy_types::OutOfMemory;
use std::alloc::Global;

// What stands behind a resource's name: in a template, in a pattern of `matchit`, and in a target. A resource has an
// operation of each.
struct Form {
    template: &'static str,
    pattern: &'static str,
    target: &'static str,
}

const FORMS: [Form; 5] = [
    Form {
        template: "",
        pattern: "",
        target: "",
    },
    Form {
        template: "/{Id}",
        pattern: "/{Id}",
        target: "/i-0123456789",
    },
    Form {
        template: "/{Id}/tags",
        pattern: "/{Id}/tags",
        target: "/i-0123456789/tags",
    },
    Form {
        template: "/{Id}/items/{Item}",
        pattern: "/{Id}/items/{Item}",
        target: "/i-0123456789/items/a%20b",
    },
    Form {
        template: "/{Id}/files/{Path+}",
        pattern: "/{Id}/files/{*Path}",
        target: "/i-0123456789/files/x/y%20z.txt",
    },
];

// The path of a resource with this behind it.
fn path_of(alloc: Global, resource: u32, behind: &str) -> Result<String, OutOfMemory> {
    Ok(format!(in alloc; "/v1/resource-{resource:03}{behind}")?)
}

// Targets of the last two of so many resources. Each is asked for in turn, so that no look-up is taken out of its loop.
fn targets_of(alloc: Global, resources: u32, form: u32) -> Result<(String, String), Failed> {
    let Some(form) = FORMS.get(form as usize) else {
        return Err(Failed);
    };
    let last = path_of(alloc, resources.saturating_sub(1), form.target)?;
    let other = path_of(alloc, resources.saturating_sub(2), form.target)?;
    Ok((last, other))
}

fn add_resource(alloc: Global, routes: &mut Routes, resource: u32) -> Result<(), Failed> {
    for form in &FORMS {
        let template = path_of(alloc, resource, form.template)?;
        routes.add("GET", template.as_str(), template.as_str())?;
    }
    Ok(())
}

/// Finds the operation of a target of the last two of so many resources, each of which has five, so many times.
pub fn find_routes(alloc: Global, resources: u32, form: u32, times: u32) -> Result<(), Failed> {
    let mut routes = Routes::new(alloc);
    for resource in 0..resources {
        add_resource(alloc, &mut routes, resource)?;
    }
    let (last, other) = targets_of(alloc, resources, form)?;
    for time in 0..times {
        let target = if time % 2 == 0 { &last } else { &other };
        if routes.find("GET", target.as_str()).is_none() {
            return Err(Failed);
        }
    }
    Ok(())
}

fn insert_resource(alloc: Global, router: &mut Router<u32>, resource: u32) -> Result<(), Failed> {
    for form in &FORMS {
        let pattern = path_of(alloc, resource, form.pattern)?;
        router.insert(pattern.as_str(), resource)?;
    }
    Ok(())
}

fn is_matched(router: &Router<u32>, target: &str) -> bool {
    router.at(target).is_ok()
}

/// The same by `matchit`, over the same paths.
pub fn match_routes(alloc: Global, resources: u32, form: u32, times: u32) -> Result<(), Failed> {
    let mut router = Router::new(alloc);
    for resource in 0..resources {
        insert_resource(alloc, &mut router, resource)?;
    }
    let (last, other) = targets_of(alloc, resources, form)?;
    for time in 0..times {
        let target = if time % 2 == 0 {
            last.as_str()
        } else {
            other.as_str()
        };
        if !is_matched(&router, target) {
            return Err(Failed);
        }
    }
    Ok(())
}
