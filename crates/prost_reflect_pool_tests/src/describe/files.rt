//! The lines of files and services.

use crate::describe::lists::list;
use crate::describe::words::{Lines, shown};
use prost_reflect::{DescriptorPool, FileDescriptor, MethodDescriptor, ServiceDescriptor};

/// The files of a pool.
pub fn write_files(lines: &mut Lines, pool: &DescriptorPool) {
    for file in pool.files() {
        match file {
            Ok(file) => write_file(lines, &file),
            Err(error) => lines.fail(error),
        }
    }
}

/// The line of a file.
fn write_file(lines: &mut Lines, file: &FileDescriptor) {
    lines.word("file ", file.name());
    lines.value(" index=", file.index());
    lines.word(" package=", shown(file.package_name()));
    lines.value(" syntax=", format_args!("{:?}", file.syntax()));
    list(lines, " dependencies=", file.dependencies());
    list(lines, " public=", file.public_dependencies());
    list(lines, " messages=", file.messages());
    list(lines, " enums=", file.enums());
    list(lines, " extensions=", file.extensions());
    list(lines, " services=", file.services());
    lines.add("\n");
}

/// The services of a pool, each followed by its methods.
pub fn write_services(lines: &mut Lines, pool: &DescriptorPool) {
    for service in pool.services() {
        match service {
            Ok(service) => write_service(lines, &service),
            Err(error) => lines.fail(error),
        }
    }
}

/// The line of a service, followed by its methods.
fn write_service(lines: &mut Lines, service: &ServiceDescriptor) {
    lines.word("service ", service.full_name());
    lines.found(" file=", service.parent_file());
    lines.word(" package=", shown(service.package_name()));
    lines.path(" path=", service.path());
    list(lines, " methods=", service.methods());
    lines.add("\n");
    for method in service.methods() {
        match method {
            Ok(method) => write_method(lines, &method),
            Err(error) => lines.fail(error),
        }
    }
}

/// The line of a method.
fn write_method(lines: &mut Lines, method: &MethodDescriptor) {
    lines.word("method ", method.full_name());
    lines.path(" path=", method.path());
    lines.value(" index=", method.index());
    lines.found(" input=", method.input());
    lines.found(" output=", method.output());
    lines.value(" client_streaming=", method.is_client_streaming());
    lines.value(" server_streaming=", method.is_server_streaming());
    lines.add("\n");
}
